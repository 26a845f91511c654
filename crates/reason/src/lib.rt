// Why a pair of tasks may nest, or may not: for two places of an accepted table, and for two ids of any image.

#![tactic(auto)]

pub mod call;
mod pairs;
pub mod places;
pub mod told;
