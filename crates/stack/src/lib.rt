// The chain and the four bounds of a table over a lent map; below the call, path sums over tasks in order and the
// search over tasks under new names.

#![tactic(auto)]

pub mod call;
pub mod chain;
mod levels;
pub mod named;
pub mod naming;
mod order;
pub mod ordered;
pub mod own;
pub mod path;
pub mod related;
pub mod rising;
pub mod search;
