// Directories: names and entries, read page by page from a stream; entries appended and removed.
#![tactic(auto)]

pub mod edits;
pub mod entries;
pub mod listing;
pub mod names;
pub mod pages;
