// Refusal 8: transaction or task not listed, or an offset not below its transaction's period.
ghost use Rattle.std.specs.Prelude.{◌≡◌, [], get_or, not};
ghost use Rattle.rules.specs.Blocks.{records, record_count};
ghost use Rattle.rules.specs.Records.{tasks, listed, transaction_missing, reference_wrong};
ghost use Rattle.image.specs.First.{first};

use crate::listing::Listing;
use crate::place::place_of;
use image::bytes::{byte_at, four_bytes, two_bytes};
use image::records::{record_at, record_count};
use rules::Kind;

// Whether a task's transaction is not listed, or its offset is not below the period there.
fn is_transaction_missing(listing: &Listing, fields: &[u8]) -> bool
    ensures { result ≡ transaction_missing (records listing.now.image.now) fields.now }
{
    match place_of(&listing.numbers, listing.transactions, two_bytes(fields, 4)) {
        Some(place) => four_bytes(record_at(listing.image, place), 8) <= four_bytes(fields, 8),
        None => true,
    }
}

// Whether the task with an id is not listed.
fn is_unlisted(listing: &Listing, id: u32) -> bool
    ensures { result ≡ not (listed (tasks (records listing.now.image.now)) id) }
{
    place_of(&listing.ids, listing.tasks, id).is_none()
}

// Whether a record refers to something that the table does not list.
fn is_reference_wrong(listing: &Listing, fields: &[u8]) -> bool
    ensures { result ≡ reference_wrong (records listing.now.image.now) fields.now }
{
    let Ok(kind) = Kind::try_from(byte_at(fields, 0)) else {
        return false;
    };
    match kind {
        Kind::Transaction => false,
        Kind::Task => is_transaction_missing(listing, fields),
        Kind::Pair => {
            is_unlisted(listing, two_bytes(fields, 2)) || is_unlisted(listing, two_bytes(fields, 4))
        }
    }
}

// The first record that refers to something not listed.
pub fn first_wrong_reference(listing: &Listing) -> Option<usize>
    ensures { result ≡ first (λ k. reference_wrong (records listing.now.image.now) (get_or (records listing.now.image.now) k [])) (record_count listing.now.image.now) }
{
    (0..record_count(listing.image)).find(|&k| is_reference_wrong(
        listing,
        record_at(listing.image, k),
    ))
}
