// The patch call: base, patch and base map are read, a room for the image and a room for the map are written.
ghost use Rattle.std.specs.Prelude.{◌≡◌, false, ◌||◌, ◌≤◌, ltb, length, replicate, IfOk, IfErr};
ghost use Rattle.rules.specs.Blocks.{records};
ghost use Rattle.rules.specs.Calls.{over, PatchCall, Offends};
ghost use Rattle.rules.specs.Refusals.{accepted, table_verdict};
ghost use Rattle.rules.specs.Told.{patch_told};
ghost use Rattle.table.specs.Precedence.{before_map};

use crate::absent::verdict_of_both;
use crate::carried::{Carried, carry_map};
use crate::change::Change;
use crate::outcome::write_outcome;
use crate::space::blank_bytes;
use image::records::record_part;
use image::write::copy_bytes;
use preempt::map::write_rows;
use rules::{PatchFound, Refusal};
use table::accepted::Table;
use table::judge_table;

// The bytes of the longest table.
const LONGEST_TABLE: usize = rules::TABLE_BLOCKS * rules::BLOCK_BYTES;

// Whether a lent map or room is too short.
fn is_short(map: usize, carried: usize, room: usize, outcome: usize) -> bool
    ensures { result ≡ (ltb map 64 || (ltb carried 64 || ltb room outcome)) }
{
    map < 64 || carried < 64 || room < outcome
}

// Writes an accepted outcome and its map to the lent rooms.
fn write_rooms(image: &[u8], found: Carried, room: &mut [u8], carried: &mut [u64]) -> PatchFound
    requires { (length image.now ≤ 11776) × (length image.now ≤ length room.old) × (64 ≤ length carried.old) }
    ensures told { (result.touched ≡ found.touched) × (result.length ≡ length image.now) }
    ensures image_written { room.new ≡ over image.now room.old }
    ensures map_written { carried.new ≡ over found.map carried.old }
{
    copy_bytes(image, room);
    write_rows(found.map, carried);
    PatchFound {
        touched: found.touched,
        length: image.len() as u32,
    }
}

// The image of an outcome as a table, and which of its tasks come before which; refusal 10 where it is none.
#[tactic(auto, using(crate::proofs::Calling::judgments))]
fn judge_outcome<'a>(image: &'a [u8], before: &mut [u64; 64]) -> Result<Table<'a>, Refusal>
    requires { before.old ≡ replicate 64 0 }
    ensures table { IfOk result (λ table. (table.image.now ≡ image.now) × (before.new ≡ before_map (records image.now))) }
    ensures refused { IfErr result (λ refusal. (refusal ≡ Refusal.NoTable) × (accepted (table_verdict image.now) ≡ false)) }
{
    match judge_table(image, before) {
        Ok(table) => Ok(table),
        Err(_) => Err(Refusal::NoTable),
    }
}

// Applies a patch, with a space for the image of its outcome.
#[tactic(auto, using(crate::proofs::Calling::call_verdicts))]
fn apply_in(
    change: &Change,
    map: &[u64],
    room: &mut [u8],
    carried: &mut [u64],
    space: &mut [u8],
) -> Result<PatchFound, Refusal>
    requires { 11776 ≤ length space.old }
    ensures { PatchCall change.now.base.image.now change.now.patch.image.now map.now room.old carried.old (patch_told result) room.new carried.new }
{
    let Some(length) = write_outcome(change, space) else {
        return Err(Refusal::NoTable);
    };
    let mut before = [0u64; 64];
    let outcome = judge_outcome(&space[..length], &mut before)?;
    if is_short(map.len(), carried.len(), room.len(), outcome.image.len()) {
        return Err(Refusal::Short);
    }
    let found = carry_map(change, &outcome, before, map);
    Ok(write_rooms(outcome.image, found, room, carried))
}

// Applies a patch to a base: writes the outcome's image and its map to the lent rooms and answers the number of touched
// tasks and the outcome's length. A refusal writes nothing.
pub fn apply_patch(
    base: &[u8],
    patch: &[u8],
    map: &[u64],
    room: &mut [u8],
    carried: &mut [u64],
) -> Result<PatchFound, Refusal>
    ensures { PatchCall base.now patch.now map.now room.old carried.old (patch_told result) room.new carried.new }
{
    let change = verdict_of_both(base, patch)?;
    let mut space = blank_bytes::<LONGEST_TABLE>();
    apply_in(&change, map, room, carried, &mut space)
}

// The 32 bytes of refusal 9 as a part of the patch image, and an empty part where a call answers anything else.
#[tactic(auto, using(crate::proofs::Calling::call_verdicts))]
pub fn offending_part<'a>(base: &[u8], patch: &'a [u8]) -> &'a [u8]
    ensures { Offends base.now patch.now result.now }
{
    match verdict_of_both(base, patch) {
        Err(Refusal::Absent(place)) => record_part(patch, place as usize),
        _ => &patch[0..0],
    }
}
