//! A shop's life goes on over other commands that change its disk: these keep its cards and tills.
#![tactic(auto)]

mod laws;

pub use laws::{
    a_change_begins_a_chapter, a_repair_leaves_the_same_shop, kept_files_keep_the_cards,
    the_changes_keep_the_cards,
};
