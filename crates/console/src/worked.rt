// The bounds of the table image that standard input holds.
ghost use Rattle.std.specs.Prelude.{◌≡◌, ◌≤◌, ℕ, IfOk, IfSome, OnOk, OnErr, length, take};
ghost use Rattle.std.specs.Io.KnownBytes.{IsAtEnd};
ghost use Rattle.std.proofs.Math.Logic.{◌⊎◌};
ghost use Rattle.rules.specs.declared.Bounds.{Bounds};
ghost use Rattle.rules.specs.Calls.{map_after, BoundCall};
ghost use Rattle.rules.specs.Told.{bounds_told};

use crate::input::read;
use crate::print;
use preempt::map::fill_map;
use rules::{BoundsFound, Refusal, Verdict};
use stack::call::find_bounds;
use std::io;
use std::io::Read;

// How many bytes were read, and what the bound call answers to them.
#[derive(Clone, Copy)]
pub struct Worked {
    pub length: usize,
    pub bounds: Result<BoundsFound, Refusal>,
}

// The bounds of a table over its own map, which is left in the rows.
fn own_bounds(image: &[u8], rows: &mut [u64], ids: &mut [u16]) -> Result<BoundsFound, Refusal>
    ensures rows_after { rows.new ≡ map_after image.now rows.old }
    ensures bound_call { BoundCall image.now rows.new ids.old (bounds_told result) ids.new }
{
    let _ = fill_map(image, rows);
    find_bounds(image, rows, ids)
}

// Reads the input into the space and finds its bounds over its own map, with the chain in the ids. A refusal is printed. An error
// of reading leaves rows and ids as they were, and one of printing leaves the answer in them.
pub fn work_out<R: Read>(
    input: &mut R,
    out: &impl Print,
    space: &mut [u8],
    rows: &mut [u64],
    ids: &mut [u16],
) -> io::Result<Worked>
    ensures length_in_bounds { IfOk result (λ worked. worked.length ≤ length space.new) }
    ensures bytes { IfOk result (λ worked. IfSome (R.remaining input.old) (λ bytes. take worked.length space.new ≡ take (length space.new) bytes)) }
    ensures end { OnOk result (IsAtEnd (R.remaining input.new)) }
    ensures rows_after { IfOk result (λ worked. rows.new ≡ map_after (take worked.length space.new) rows.old) }
    ensures bound_call { IfOk result (λ worked. BoundCall (take worked.length space.new) rows.new ids.old (bounds_told worked.bounds) ids.new) }
    ensures err { OnErr result (((rows.new ≡ rows.old) × (ids.new ≡ ids.old)) ⊎ ((n : ℕ) × (answer : Bounds) × (rows.new ≡ map_after (take n space.new) rows.old) × BoundCall (take n space.new) rows.new ids.old answer ids.new)) }
{
    let length = read(input, space)?;
    let bounds = own_bounds(&space[..length], rows, ids);
    if let Err(refusal) = bounds {
        print::refusal(out, Verdict::from(refusal))?;
    }
    Ok(Worked { length, bounds })
}
