// Cards made by plan, as docs/CASES.md describes: the plan drawn, its blocks given out, the card laid; and where its parts stand,
// for the program `cases` to damage.
#![tactic(auto)]

pub mod card;
pub mod draft;
pub mod draws;
pub mod entries;
pub mod fault;
pub mod free;
pub mod image;
pub mod kinds;
mod lay;
pub mod owners;
pub mod parts;
pub mod plan;
pub mod sizes;
pub mod wrong;
