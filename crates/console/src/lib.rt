// What the programs share: a table image from standard input and the refusal; and, for two of them, its bounds over its own map.

#![tactic(auto)]

pub mod input;
pub mod print;
pub mod worked;
