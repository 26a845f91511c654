// Sets of places, and rows of them. A set is a number of 64 bits: bit j, counted from the lowest, says whether place j is in it.

#![tactic(auto)]

pub mod bits;
pub mod closing;
pub mod places;
pub mod rows;
