// The laws of the definitions in `layout`, a module an idea, in proofs/. There is no code here: nothing that is built on it is checked again when code changes.
#![tactic(auto)]
