// The two parts of a patch, and its records written one after another into a list of bytes.
ghost use Rattle.std.specs.Prelude.{◌≡◌, ◌++◌, ◌+◌, ◌≤◌, length, take, drop, set};
ghost use Rattle.rules.specs.Numbers.{lowest};
ghost use Rattle.rules.specs.Blocks.{records, record_count};
ghost use Rattle.image.specs.Held.{HoldsRecords};
ghost use Rattle.patch.specs.Parts.{is_put_in, way_number};

use image::bytes::byte_at;
use image::records::{record_at, record_count};
use image::write::copy_bytes;

// What a patch does with a record of it: it takes it out of the base, or it puts it in.
#[derive(Clone, Copy, PartialEq, Eq, Debug)]
pub enum Way {
    TakenOut,
    PutIn,
}

// Byte 31 of a record that goes this way. In a table it is that of a record that a patch takes out.
impl From<Way> for u8 {
    ghost from_gives = { λ way byte. byte ≡ way_number way };

    fn from(way: Way) -> u8 {
        match way {
            Way::TakenOut => 0,
            Way::PutIn => 1,
        }
    }
}

// How many records a patch takes out: it puts in those from this number on. Where it puts in none that is the number of its records,
// which both callers need, so it is no Option.
pub fn first_put_in(patch: &[u8]) -> usize
    requires { HoldsRecords patch.now }
    ensures { result ≡ lowest (is_put_in (records patch.now)) (record_count patch.now) }
{
    let count = record_count(patch);
    for place in 0..count {
        if byte_at(record_at(patch, place), 31) != 0 {
            return place;
        }
    }
    count
}

// Writes a record behind the bytes written.
pub fn write_record(fields: &[u8], written: usize, flat: &mut [u8])
    requires { (length fields.now ≡ 32) × (written + 32 ≤ length flat.old) }
    ensures { flat.new ≡ take written flat.old ++ (fields.now ++ drop (written + 32) flat.old) }
{
    let end = written + rules::RECORD_BYTES;
    copy_bytes(fields, &mut flat[written..end]);
}

// Writes a record with this byte 31 behind the bytes written. It answers for every byte, of which two are a Way.
pub fn write_turned(fields: &[u8], way: u8, written: usize, flat: &mut [u8])
    requires { (length fields.now ≡ 32) × (written + 32 ≤ length flat.old) }
    ensures { flat.new ≡ take written flat.old ++ (set fields.now 31 way ++ drop (written + 32) flat.old) }
{
    write_record(fields, written, flat);
    flat[written + 31] = way;
}
