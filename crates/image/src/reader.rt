// An image's records, gone through one after another.
ghost use Rattle.std.specs.Prelude.{◌≡◌, leb};
ghost use Rattle.std.specs.Iterator.{YieldsFirstRef, item_count};
ghost use Rattle.rules.specs.Blocks.{record_at, record_count, records};
ghost use Rattle.rules.specs.Patches.{same};
ghost use Rattle.image.specs.InTurn.{records_left, past, met_among};

use crate::records::{record_count, record_part};

// The records of an image from one number up to another, each as a part of the image.
#[derive(Clone, Copy, Debug)]
pub struct Records<'a> {
    pub image: &'a [u8],
    pub next: usize,
    pub count: usize,
}

impl<'a> Records<'a> {
    // All records of an image.
    pub fn of(image: &'a [u8]) -> Records<'a>
        ensures { records_left result.image.now result.next result.count ≡ records image.entry.now }
    {
        Records {
            image,
            next: 0,
            count: record_count(image),
        }
    }
}

impl<'a> Iterator for Records<'a> {
    type Item = &'a [u8];

    ghost next_gives = { YieldsFirstRef (λ s. records_left s.image.now s.next s.count) };

    ghost remaining = { item_count (λ s. records_left s.image.now s.next s.count) };

    #[tactic(auto, using(crate::proofs::InTurn::left_more, crate::proofs::InTurn::left_none))]
    fn next(&mut self) -> Option<&'a [u8]> {
        if self.count <= self.next {
            return None;
        }
        let fields = record_part(self.image, self.next);
        self.next += 1;
        Some(fields)
    }
}

// Whether an image holds no record of this number.
pub fn is_past(image: &[u8], k: usize) -> bool
    ensures { result ≡ leb (record_count image.now) k }
{
    record_count(image) <= k
}

// Whether the bytes of an image's record are these.
#[tactic(auto, using(crate::proofs::InTurn::equal_same, crate::proofs::InTurn::whole_same))]
fn is_record(image: &[u8], k: usize, fields: &[u8]) -> bool
    ensures { result ≡ same (record_at image.now k) fields.now }
{
    record_part(image, k) == fields
}

// The number after k where the image's record k is these bytes, and else k.
#[tactic(auto, using(crate::proofs::InTurn::past_last, crate::proofs::InTurn::past_inside, crate::proofs::InTurn::count_fits))]
pub fn number_past(image: &[u8], k: usize, fields: &[u8]) -> usize
    ensures { result ≡ past (records image.now) fields.now k }
{
    if !is_past(image, k) && is_record(image, k, fields) {
        k + 1
    } else {
        k
    }
}

// How many records of the other image, from its first on, are met in turn among the image's records.
#[tactic(auto, using(crate::proofs::InTurn::met_before))]
pub fn met_among(image: &[u8], other: &[u8]) -> usize
    ensures { result ≡ met_among (records image.now) (records other.now) (record_count image.now) }
{
    let mut met = 0;
    for fields in Records::of(image) {
        met = number_past(other, met, fields);
    }
    met
}
