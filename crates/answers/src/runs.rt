// A run of patches, `R`: each patch is put to what the last accepted one left.
use crate::case::Case;
use crate::space::{
    IMAGE_BYTES, ROOM_BYTES, ROWS, fill_numbers, filled, read_bytes, read_numbers, start_of,
};
use crate::standing::Standing;
use crate::stop::Stop;
use std::io::Read;

// The most steps of a run.
const MOST_STEPS: u32 = 32;

// Prints what stands and answers the steps that are left, each on what the last accepted one left.
fn answer_steps(
    input: &mut impl Read,
    out: &impl Print,
    left: u32,
    standing: &Standing,
) -> Result<(), Stop> {
    standing.print(out)?;
    if left == 0 {
        return Ok(());
    }
    let mut lengths = [0u32; 3];
    fill_numbers(input, &mut lengths)?;
    let [patch_bytes, new_rows, room_bytes] = lengths;
    let mut patch_space = filled::<u8, IMAGE_BYTES>(0);
    let mut room_space = filled::<u8, ROOM_BYTES>(255);
    let mut map_space = filled::<u64, ROWS>(u64::MAX);
    let patch = read_bytes(input, &mut patch_space, patch_bytes as usize)?;
    let room = start_of(&mut room_space, room_bytes as usize)?;
    let map = start_of(&mut map_space, new_rows as usize)?;
    let Some(length) = standing.put(out, patch, room, map)? else {
        return answer_steps(input, out, left - 1, standing);
    };
    let image = start_of(room, length)?;
    answer_steps(input, out, left - 1, &Standing { image, map })
}

// Answers one case.
pub fn answer(input: &mut impl Read, out: &impl Print, case: &Case) -> Result<(), Stop> {
    if MOST_STEPS < case.steps() {
        return Err(Stop::Ended);
    }
    let mut image_space = filled::<u8, IMAGE_BYTES>(0);
    let mut map_space = filled::<u64, ROWS>(0);
    let image = read_bytes(input, &mut image_space, case.image_bytes)?;
    let map = read_numbers(input, &mut map_space, case.read_rows)?;
    print!(out; "R")?;
    answer_steps(input, out, case.steps(), &Standing { image, map })?;
    println!(out;)?;
    Ok(())
}
