// How many records of a kind there are: for refusal 7 by a tally, in a patch those taken out and those put in apart, and in
// records that are in order by where the kinds start.
ghost use Rattle.std.specs.Prelude.{◌≡◌, true, ◌≤◌, ◌<◌, length};
ghost use Rattle.rules.specs.Blocks.{records, record_count};
ghost use Rattle.rules.specs.Records.{of_kind};
ghost use Rattle.rules.specs.Refusals.{accepted, records_verdict};
ghost use Rattle.rules.specs.declared.Form.TheVariants.{Table};
ghost use Rattle.image.specs.Held.{HoldsRecords};
ghost use Rattle.table.specs.Tally.{slot_of, Tallied, KindStart};

use image::bytes::byte_at;
use image::records::{record_at, record_count};

// Where a kind and a way are counted, or 0 for what no record of a right form has.
fn slot(fields: &[u8]) -> usize
    ensures { (result ≡ slot_of fields.now) × (result < 8) }
{
    let kind = byte_at(fields, 0);
    let way = byte_at(fields, 31);
    if kind <= 3 && way <= 1 {
        (kind + 4 * way) as usize
    } else {
        0
    }
}

// How many records there are of each kind and way: of kind k and way w at k + 4 * w.
pub fn tally(image: &[u8]) -> [u32; 8]
    requires few { record_count image.now ≤ 1000 }
    requires held { HoldsRecords image.now }
    ensures { Tallied (records image.now) result }
{
    let mut counts = [0u32; 8];
    for k in 0..record_count(image) {
        counts[slot(record_at(image, k))] += 1;
    }
    counts
}

// The number of the first record of at least this kind, or how many records there are where none is. No kind is below 1 or above 3;
// between them it is looked for by halving, as kinds do not fall.
fn kind_start(image: &[u8], kind: u32) -> usize
    requires sound { accepted (records_verdict Table (records image.now)) ≡ true }
    requires held { HoldsRecords image.now }
    ensures { KindStart (records image.now) kind result }
{
    if kind <= 1 {
        return 0;
    }
    let count = record_count(image);
    if 3 < kind {
        return count;
    }
    // By hand: records lie across blocks, so there is no slice of them whose `partition_point` could be asked.
    let mut low: usize = 0;
    let mut high = count;
    while low < high {
        let middle = low + (high - low) / 2;
        if byte_at(record_at(image, middle), 0) < kind {
            low = middle + 1;
        } else {
            high = middle;
        }
    }
    low
}

// How many records of a kind an image has whose records are in order. It answers for the number 0 too, which is no Kind.
pub fn count_kind(image: &[u8], kind: u32) -> usize
    requires sound { accepted (records_verdict Table (records image.now)) ≡ true }
    requires known { kind ≤ 3 }
    requires held { HoldsRecords image.now }
    ensures counted { result ≡ length (of_kind kind (records image.now)) }
    ensures inside { result ≤ record_count image.now }
{
    kind_start(image, kind + 1) - kind_start(image, kind)
}
