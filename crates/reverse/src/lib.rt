// The reverse of a patch: what it puts in is taken out, and what it takes out is put in.

#![tactic(auto)]

pub mod call;
mod turned;
mod written;
