// Refusal 5: not after the record before it, in the image's order.
ghost use Rattle.std.specs.Prelude.{◌≡◌, ◌<◌};
ghost use Rattle.rules.specs.Blocks.{records, record_count};
ghost use Rattle.rules.specs.Records.{key as Records·key, image_key};
ghost use Rattle.rules.specs.Refusals.{order_wrong};
ghost use Rattle.image.specs.First.{first};
ghost use Rattle.image.specs.Held.{HoldsRecords};

use image::bytes::{byte_at, two_bytes};
use image::records::{record_at, record_count};
use rules::Kind;

// A number that rises exactly as table order does.
pub fn key(fields: &[u8]) -> u64
    ensures { (result ≡ Records·key fields.now) × (result < 1099511627776) }
{
    let kind = byte_at(fields, 0);
    let front = (u64::from(kind) * 65536 + u64::from(two_bytes(fields, 2))) * 65536;
    if kind == u32::from(Kind::Pair) {
        front + u64::from(two_bytes(fields, 4))
    } else {
        front
    }
}

// The same with byte 31 in front, which in a patch keeps the records taken out before those put in.
fn image_key(fields: &[u8]) -> u64
    ensures { result ≡ image_key fields.now }
{
    u64::from(byte_at(fields, 31)) * 1099511627776 + key(fields)
}

// The first record that is not after the one before it.
pub fn first_wrong_order(image: &[u8]) -> Option<usize>
    requires held { HoldsRecords image.now }
    ensures { result ≡ first (order_wrong (records image.now)) (record_count image.now) }
{
    let count = record_count(image);
    if count == 0 {
        return None;
    }
    let mut before = image_key(record_at(image, 0));
    for k in 1..count {
        let here = image_key(record_at(image, k));
        if here <= before {
            return Some(k);
        }
        before = here;
    }
    None
}
