// The check: the eight rules in their order, each on the footing of the earlier ones.
#![tactic(auto)]

pub mod check;
