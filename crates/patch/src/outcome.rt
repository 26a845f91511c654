// The outcome of a patch, written as a table image.
ghost use Rattle.std.specs.Prelude.{◌≡◌, ◌≤◌, length};
ghost use Rattle.rules.specs.Blocks.{records};
ghost use Rattle.rules.specs.Patches.{outcome};
ghost use Rattle.patch.specs.Written.{ImageWritten};

use crate::change::Change;
use crate::merge::merge;
use crate::space::blank_bytes;
use image::write::write_image;
use rules::Form;

// The bytes of the records of any table, at most 336, and of those that a patch puts in, at most 336 too.
const MOST_RECORD_BYTES: usize = 21_504;

// Writes the outcome's records one after another, and their image over the start of the room.
fn write_in(change: &Change, flat: &mut [u8], room: &mut [u8]) -> Option<usize>
    requires in_bounds { (21504 ≤ length flat.old) × (11776 ≤ length room.old) }
    ensures { ImageWritten (outcome (records change.now.base.image.now) (records change.now.patch.image.now)) result room.new }
{
    let bytes = merge(change, flat);
    write_image(Form::Table, &flat[..bytes], room)
}

// Writes the image of the outcome over the start of the room and answers its length, unless it has more blocks than a table
// may have.
pub fn write_outcome(change: &Change, room: &mut [u8]) -> Option<usize>
    requires { 11776 ≤ length room.old }
    ensures { ImageWritten (outcome (records change.now.base.image.now) (records change.now.patch.image.now)) result room.new }
{
    let mut flat = blank_bytes::<MOST_RECORD_BYTES>();
    write_in(change, &mut flat, room)
}
