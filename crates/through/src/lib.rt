// The heaviest chains through a task: what they leave of a reserve, task by task, and the one through a named task.

#![tactic(auto)]

pub mod call;
mod near;
mod weights;
