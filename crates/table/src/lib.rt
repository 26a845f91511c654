// Records: their form, order, ranges and counts, what they refer to, and the verdict on a whole image.

#![tactic(auto)]

pub mod accepted;
pub mod count;
mod form;
mod listing;
pub mod order;
pub mod pairs;
pub mod place;
pub mod precedence;
mod range;
mod reference;
mod verdict;

pub use verdict::{judge_table, patch_verdict, table_verdict};
