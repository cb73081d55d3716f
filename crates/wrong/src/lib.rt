// Wrong stores, and which demand each of them fails. There is no code here.
#![tactic(auto)]
