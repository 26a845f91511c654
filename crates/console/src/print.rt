// The line that the programs print of a refusal.
use rules::Verdict;
use std::io;

// The number and the place of a refusal, alone.
pub fn refusal(out: &impl Print, told: Verdict) -> io::Result<()> {
    println!(out; "refused {} at {}", told.number, told.place)
}
