// Patches: what is taken out and put in, the outcome as a table, the tasks that are touched, and the map that is carried over.

#![tactic(auto)]

pub mod absent;
pub mod call;
mod carried;
pub mod change;
mod merge;
mod outcome;
pub mod parts;
mod related;
pub mod space;
mod touched;
