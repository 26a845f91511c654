// Room for what a case lends, and reading it from the stream.
ghost use Rattle.std.specs.Prelude.{◌≡◌, ◌≤◌, ℕ, IfOk, OnOk, OnErr, length, take};
ghost use Rattle.std.specs.Io.KnownBytes.{Consumes};

use crate::little_endian::LittleEndian;
use crate::stop::Stop;
use console::input::read_full;
use std::io::Read;

// The most bytes of an image that a case may have, and of the room for the image that a patch call writes.
pub const IMAGE_BYTES: usize = 24_576;

pub const ROOM_BYTES: usize = 12_800;

// The most rows of a map that a case may have, which is also how many figures and questions there are at most, and the most ids.
pub const ROWS: usize = 80;

pub const IDS: usize = 96;

// The bytes of that many rows.
const ROWS_BYTES: usize = 640;

// N times the value. The promise gives only the length, which lending it as a slice needs.
pub fn filled<T: Copy + Drop, const N: usize>(value: T) -> [T; N]
    ensures { N ≡ length result }
{
    [value; N]
}

// The first count items of a space, which the stream may not ask for where it is shorter.
pub fn start_of<T>(space: &mut [T], count: usize) -> Result<&mut [T], Stop>
    ensures { IfOk result (λ part. length part.now ≡ count) }
{
    space.get_mut(..count).ok_or(Stop::Ended)
}

// Reads bytes until the space is full.
fn fill<R: Read>(input: &mut R, space: &mut [u8]) -> Result<(), Stop>
    ensures bytes { OnOk result (Consumes (R.remaining input.old) (R.remaining input.new) space.new) }
    ensures err { OnErr result ((n : ℕ) × (n ≤ length space.new) × Consumes (R.remaining input.old) (R.remaining input.new) (take n space.new)) }
{
    if read_full(input, space)? < space.len() {
        return Err(Stop::Ended);
    }
    Ok(())
}

// Sets numbers from the bytes of as many.
fn set<T: LittleEndian<WIDTH>, const WIDTH: usize>(numbers: &mut [T], bytes: &[u8]) {
    let mut rest = bytes;
    for number in numbers.iter_mut() {
        let Some((first, others)) = rest.split_first_chunk::<WIDTH>() else {
            break;
        };
        *number = T::of_bytes(*first);
        rest = others;
    }
}

// Reads numbers until the space is full, 640 bytes of them at most.
pub fn fill_numbers<T: LittleEndian<WIDTH>, const WIDTH: usize>(
    input: &mut impl Read,
    numbers: &mut [T],
) -> Result<(), Stop>
    ensures { OnErr result (numbers.new ≡ numbers.old) }
{
    let mut space = filled::<u8, ROWS_BYTES>(0);
    let length = numbers.len().checked_mul(WIDTH).ok_or(Stop::Ended)?;
    let bytes = start_of(&mut space, length)?;
    fill(input, bytes)?;
    set(numbers, bytes);
    Ok(())
}

// Reads count bytes to the start of the space, and answers them.
pub fn read_bytes<'a>(
    input: &mut impl Read,
    space: &'a mut [u8],
    count: usize,
) -> Result<&'a mut [u8], Stop>
    ensures { IfOk result (λ part. length part.now ≡ count) }
{
    let bytes = start_of(space, count)?;
    fill(input, bytes)?;
    Ok(bytes)
}

// Reads count numbers to the start of the space, and answers them.
pub fn read_numbers<'a, T: LittleEndian<WIDTH>, const WIDTH: usize>(
    input: &mut impl Read,
    space: &'a mut [T],
    count: usize,
) -> Result<&'a mut [T], Stop>
    ensures { IfOk result (λ part. length part.now ≡ count) }
{
    let numbers = start_of(space, count)?;
    fill_numbers(input, numbers)?;
    Ok(numbers)
}
