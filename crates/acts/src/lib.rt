// What create, delete and list do once nothing refuses them: on a shape and a stream's index, without a check and without a search
// for a name. Every function works on any bytes; what it asks for are numbers that fit.
#![tactic(auto)]

pub mod create;
pub mod delete;
pub mod list;
