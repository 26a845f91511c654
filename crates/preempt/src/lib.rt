// Who may preempt whom: a table's tasks and one-way pairs, read once, the distance, the decision for a pair of tasks, and the map.

#![tactic(auto)]

pub mod barred;
pub mod columns;
pub mod decide;
pub mod map;
pub mod tasks;
