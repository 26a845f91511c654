// Bounds within a limit: how many chains 001's Algorithm 1 opens, and the bounds where it opens no more than the limit.

#![tactic(auto)]

pub mod call;
mod opening;
