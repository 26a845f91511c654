// The reverse of a patch, written as a patch image.
ghost use Rattle.std.specs.Prelude.{◌≡◌, ◌≤◌, length};
ghost use Rattle.rules.specs.Calls.{over, reverse_of};

use crate::turned::write_reversed;
use image::write::write_image;
use patch::space::blank_bytes;
use rules::Form;
use table::accepted::Patch;

// The bytes of the records of the longest patch, 15 in each of 45 blocks.
const MOST_RECORD_BYTES: usize = rules::PATCH_BLOCKS
    * rules::RECORDS_PER_BLOCK
    * rules::RECORD_BYTES;

// Writes the records of the reverse one after another, and their image over the start of the room.
fn write_in(patch: &Patch, flat: &mut [u8], room: &mut [u8])
    requires in_bounds { (21600 ≤ length flat.old) × (length patch.now.image.now ≤ length room.old) }
    ensures { room.new ≡ over (reverse_of patch.now.image.now) room.old }
{
    let bytes = write_reversed(patch, flat);
    write_image(Form::Patch, &flat[..bytes], room);
}

// Writes the reverse of a patch over the start of the room, which holds it: it is as long as the patch.
pub fn write_reverse(patch: &Patch, room: &mut [u8])
    requires { length patch.now.image.now ≤ length room.old }
    ensures { room.new ≡ over (reverse_of patch.now.image.now) room.old }
{
    let mut flat = blank_bytes::<MOST_RECORD_BYTES>();
    write_in(patch, &mut flat, room);
}
