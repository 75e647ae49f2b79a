//! The tree as definitions, and what is true of them for every key class.
//!
//! Definitions do not run: the functions here carry the theorems in their contracts, for the code that works on pages.
#![tactic(auto)]

mod theorems;

pub use theorems::{
    insert_adds, insert_lists_writes, least_pages_hold, remove_lists_edits, remove_takes,
    search_finds, words_fix_the_tree,
};
