// Blocks: length, check, header and fill of an image, and where its records stand.

#![tactic(auto)]

mod block;
pub mod bytes;
pub mod frame;
pub mod reader;
pub mod records;
pub mod write;
