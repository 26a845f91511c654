// The patch call, `A`.
use crate::case::Case;
use crate::space::{IMAGE_BYTES, ROOM_BYTES, ROWS, filled, read_bytes, read_numbers};
use crate::stop::Stop;
use crate::{digest, print};
use patch::call::{apply_patch, offending_part};
use std::io::Read;

// Answers one case.
pub fn answer(input: &mut impl Read, out: &impl Print, case: &Case) -> Result<(), Stop> {
    let mut base_space = filled::<u8, IMAGE_BYTES>(0);
    let mut patch_space = filled::<u8, IMAGE_BYTES>(0);
    let mut base_map_space = filled::<u64, ROWS>(0);
    let mut new_map_space = filled::<u64, ROWS>(0);
    let mut room_space = filled::<u8, ROOM_BYTES>(0);
    let base = read_bytes(input, &mut base_space, case.image_bytes)?;
    let patch = read_bytes(input, &mut patch_space, case.patch_bytes)?;
    let base_map = read_numbers(input, &mut base_map_space, case.read_rows)?;
    let new_map = read_numbers(input, &mut new_map_space, case.written_rows)?;
    let room = read_bytes(input, &mut room_space, case.room_bytes())?;
    let patched = apply_patch(base, patch, base_map, room, new_map);
    let offending = offending_part(base, patch);
    print!(out; "A")?;
    print::patched(out, patched, offending)?;
    print!(out;
        " {} {}",
        digest::of_bytes(offending),
        digest::of_bytes(room)
    )?;
    println!(out; " {}", digest::of_numbers(new_map))?;
    Ok(())
}
