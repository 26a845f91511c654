// The reverse call, `V`.
use crate::case::Case;
use crate::space::{IMAGE_BYTES, filled, read_bytes};
use crate::stop::Stop;
use crate::{digest, print};
use reverse::call::reverse_patch;
use std::io::Read;

// Answers one case.
pub fn answer(input: &mut impl Read, out: &impl Print, case: &Case) -> Result<(), Stop> {
    let mut patch_space = filled::<u8, IMAGE_BYTES>(0);
    let mut room_space = filled::<u8, IMAGE_BYTES>(0);
    let patch = read_bytes(input, &mut patch_space, case.image_bytes)?;
    let room = read_bytes(input, &mut room_space, case.room_bytes())?;
    print!(out; "V")?;
    print::reversed(out, reverse_patch(patch, room))?;
    println!(out; " {}", digest::of_bytes(room))?;
    Ok(())
}
