// What the promises mean: the store as a plain list of names with their bytes. There is no code here.
#![tactic(auto)]
