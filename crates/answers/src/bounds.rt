// The bound call, `B`.
use crate::case::Case;
use crate::space::{IDS, IMAGE_BYTES, ROWS, filled, read_bytes, read_numbers};
use crate::stop::Stop;
use crate::{digest, print};
use stack::call::find_bounds;
use std::io::Read;

// Answers one case.
pub fn answer(input: &mut impl Read, out: &impl Print, case: &Case) -> Result<(), Stop> {
    let mut image_space = filled::<u8, IMAGE_BYTES>(0);
    let mut map_space = filled::<u64, ROWS>(0);
    let mut id_space = filled::<u16, IDS>(0);
    let image = read_bytes(input, &mut image_space, case.image_bytes)?;
    let map = read_numbers(input, &mut map_space, case.read_rows)?;
    let ids = read_numbers(input, &mut id_space, case.id_count)?;
    print!(out; "B")?;
    print::bounds(out, find_bounds(image, map, ids))?;
    println!(out; " {}", digest::of_numbers(ids))?;
    Ok(())
}
