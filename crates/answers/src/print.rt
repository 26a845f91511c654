// The parts of an answer's line, in the order of the stream's description: each number stands behind a space.
use rules::{
    Bounds, BoundsFound, BoundsWithin, ChainFound, PatchFound, Patched, Reason, Reasoned, Refusal,
    Reversed, Shown, Verdict, WithinFound,
};
use std::fmt::Display;
use std::io;

// The first count numbers.
pub fn first<T: Display>(out: &impl Print, numbers: &[T], count: usize) -> io::Result<()> {
    for number in numbers.iter().take(count) {
        print!(out; " {number}")?;
    }
    Ok(())
}

// The numbers of a check.
pub fn verdict(out: &impl Print, check: Result<(), Refusal>) -> io::Result<()> {
    let told = Verdict::from(check);
    print!(out; " {} {}", told.number, told.place)
}

// The numbers of a bound call.
pub fn bounds(out: &impl Print, call: Result<BoundsFound, Refusal>) -> io::Result<()> {
    let told = Bounds::from(call);
    print!(out;
        " {} {} {} {}",
        told.number, told.place, told.tasks, told.chain
    )?;
    print!(out;
        " {} {} {} {}",
        told.path, told.transactions, told.levels, told.length
    )
}

// The numbers of a bound call with a limit.
pub fn within(out: &impl Print, call: Result<WithinFound, Refusal>) -> io::Result<()> {
    let told = BoundsWithin::from(call);
    print!(out;
        " {} {} {} {}",
        told.number, told.place, told.tasks, told.chain
    )?;
    print!(out;
        " {} {} {} {}",
        told.path, told.transactions, told.levels, told.length
    )?;
    print!(out; " {}", told.opened)
}

// The numbers of a chain call for one task.
pub fn shown(out: &impl Print, call: Result<ChainFound, Refusal>) -> io::Result<()> {
    let told = Shown::from(call);
    print!(out;
        " {} {} {} {}",
        told.number, told.place, told.weight, told.length
    )
}

// The numbers of a reason call.
pub fn reasoned(out: &impl Print, call: Result<Reason, Refusal>) -> io::Result<()> {
    let told = Reasoned::from(call);
    print!(out; " {} {} {}", told.number, told.place, told.reason)
}

// The numbers of a patch call, and the length of the offending part.
pub fn patched(
    out: &impl Print,
    call: Result<PatchFound, Refusal>,
    offending: &[u8],
) -> io::Result<()> {
    let told = Patched::from(call);
    print!(out;
        " {} {} {} {}",
        told.number, told.place, told.touched, told.length
    )?;
    print!(out; " {}", offending.len())
}

// The numbers of a reverse call.
pub fn reversed(out: &impl Print, call: Result<u32, Refusal>) -> io::Result<()> {
    let told = Reversed::from(call);
    print!(out; " {} {} {}", told.number, told.place, told.length)
}
