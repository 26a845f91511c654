// The records of the reverse, one after another: the two parts of a patch change over, and byte 31 with them.
ghost use Rattle.std.specs.Prelude.{◌+◌, ◌*◌, ◌-◌, ◌≤◌, length, take, drop};
ghost use Rattle.rules.specs.Blocks.{records, record_count};
ghost use Rattle.rules.specs.Patches.{with_way, reversed};
ghost use Rattle.patch.specs.Parts.{way_number};
ghost use Rattle.reverse.specs.Turned.{Behind};

use image::records::{record_at, record_count};
use patch::parts::{Way, first_put_in, write_turned};
use table::accepted::Patch;

// Writes the records from one number up to another, all taken out or all put in, behind the bytes that are written, and answers
// how many are written then.
fn write_part(
    patch: &Patch,
    from: usize,
    to: usize,
    way: Way,
    before: usize,
    flat: &mut [u8],
) -> usize
    requires in_bounds { (from ≤ to) × ((to ≤ record_count patch.now.image.now) × (before + 32 * (to - from) ≤ length flat.old)) }
    ensures { Behind (with_way (way_number way) (take (to - from) (drop from (records patch.now.image.now)))) before result flat.old flat.new }
{
    let mut written = before;
    for place in from..to {
        write_turned(record_at(patch.image, place), u8::from(way), written, flat);
        written += rules::RECORD_BYTES;
    }
    written
}

// Writes the records of the reverse, one after another, and answers how many bytes they are: what the patch puts in is
// taken out, and what it takes out is put in.
pub fn write_reversed(patch: &Patch, flat: &mut [u8]) -> usize
    requires { 21600 ≤ length flat.old }
    ensures { Behind (reversed (records patch.now.image.now)) 0 result flat.old flat.new }
{
    let count = record_count(patch.image);
    let first = first_put_in(patch.image);
    let written = write_part(patch, first, count, Way::TakenOut, 0, flat);
    write_part(patch, 0, first, Way::PutIn, written, flat)
}
