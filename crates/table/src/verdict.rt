// The verdict on a whole image, as a table and as a patch.
ghost use Rattle.std.specs.Prelude.{◌≡◌, ℕ, List, true, ◌≤◌, replicate, IfOk};
ghost use Rattle.rules.specs.Blocks.{records, record_count};
ghost use Rattle.rules.specs.Records.{most_of, too_many};
ghost use Rattle.rules.specs.Kinds.{kind_number};
ghost use Rattle.rules.specs.Refusals.{accepted, fine, frame_verdict, records_verdict, count_refusal, reference_refusal, circle_refusal, link_refusal, table_verdict, patch_verdict};
ghost use Rattle.rules.specs.Told.{judged};
ghost use Rattle.image.specs.Held.{HoldsRecords};
ghost use Rattle.table.specs.Tally.{Tallied};
ghost use Rattle.table.specs.Judged.{earlier_verdict, Judges};

use crate::accepted::{Patch, Table};
use crate::count::tally;
use crate::form::first_wrong_form;
use crate::listing::{Listing, list_records};
use crate::order::first_wrong_order;
use crate::precedence::{first_circle, mark_before};
use crate::range::first_wrong_range;
use crate::reference::first_wrong_reference;
use image::frame::frame_verdict;
use rules::{Fault, Form, Kind, Refusal};

// The most records of a kind that a table may have, and that a patch may take out or put in.
fn most_of(kind: Kind) -> u32
    ensures { result ≡ most_of (kind_number kind) }
{
    match kind {
        Kind::Transaction => rules::MOST_TRANSACTIONS,
        Kind::Task => rules::MOST_TASKS,
        Kind::Pair => rules::MOST_PAIRS,
    }
}

// Whether there are more records of a kind than may be taken out, or put in, by their tally.
fn has_too_many(counts: [u32; 8], kind: Kind) -> bool
    ensures { (rs : List (List ℕ)) → Tallied rs counts → result ≡ too_many rs (kind_number kind) }
{
    let most = most_of(kind);
    let at = u32::from(kind) as usize;
    most < counts[at] || most < counts[at + 4]
}

// 7: too many of a kind.
fn check_counts(form: Form, image: &[u8]) -> Result<(), Refusal>
    requires few { record_count image.now ≤ 1000 }
    requires held { HoldsRecords image.now }
    ensures { judged result ≡ count_refusal form (records image.now) }
{
    let counts = tally(image);
    if has_too_many(counts, Kind::Transaction) {
        return Err(Refusal::Image(form, Fault::TooMany(Kind::Transaction)));
    }
    if has_too_many(counts, Kind::Task) {
        return Err(Refusal::Image(form, Fault::TooMany(Kind::Task)));
    }
    if has_too_many(counts, Kind::Pair) {
        return Err(Refusal::Image(form, Fault::TooMany(Kind::Pair)));
    }
    Ok(())
}

// 4 to 7: form, then order, then ranges, then counts, each over the whole image before the next.
fn check_records(form: Form, image: &[u8]) -> Result<(), Refusal>
    requires few { record_count image.now ≤ 1000 }
    requires held { HoldsRecords image.now }
    ensures { judged result ≡ records_verdict form (records image.now) }
{
    if let Some(place) = first_wrong_form(form, image) {
        return Err(Refusal::Image(form, Fault::Unformed(place as u32)));
    }
    if let Some(place) = first_wrong_order(image) {
        return Err(Refusal::Image(form, Fault::Unordered(place as u32)));
    }
    if let Some(place) = first_wrong_range(image) {
        return Err(Refusal::Image(form, Fault::OutOfRange(place as u32)));
    }
    check_counts(form, image)
}

// 14: a task that comes before itself. The rows are made those of which task comes before which.
fn check_circles(listing: &Listing, before: &mut [u64; 64]) -> Result<(), Refusal>
    requires referring { accepted (reference_refusal (records listing.now.image.now)) ≡ true }
    requires blank { before.old ≡ replicate 64 0 }
    ensures { Judges (circle_refusal (records listing.now.image.now)) fine (records listing.now.image.now) (judged result) before.old before.new }
{
    mark_before(before, listing.image, &listing.ids, listing.tasks);
    match first_circle(before, listing.tasks) {
        Some(place) => Err(Refusal::Circle(listing.ids[place])),
        None => Ok(()),
    }
}

// 8, then 14: what a table's records say of each other.
fn check_links(listing: &Listing, before: &mut [u64; 64]) -> Result<(), Refusal>
    requires blank { before.old ≡ replicate 64 0 }
    ensures { Judges (link_refusal (records listing.now.image.now)) (reference_refusal (records listing.now.image.now)) (records listing.now.image.now) (judged result) before.old before.new }
{
    if let Some(place) = first_wrong_reference(listing) {
        return Err(Refusal::Unknown(place as u32));
    }
    check_circles(listing, before)
}

// An image that is a table, or its refusal, 1 to 8 or 14; and in rows that were all 0, which of its tasks come before which: whoever
// wants both has them worked out once.
pub fn judge_table<'a>(image: &'a [u8], before: &mut [u64; 64]) -> Result<Table<'a>, Refusal>
    requires blank { before.old ≡ replicate 64 0 }
    ensures judges { Judges (table_verdict image.now) (earlier_verdict image.now) (records image.now) (judged result) before.old before.new }
    ensures of_image { IfOk result (λ t. t.image.now ≡ image.now) }
{
    frame_verdict(Form::Table, image)?;
    check_records(Form::Table, image)?;
    let listing = list_records(image);
    check_links(&listing, before)?;
    Ok(Table {
        image,
        transactions: listing.transactions,
        tasks: listing.tasks,
        pairs: listing.pairs,
    })
}

// An image that is a table, or its refusal, 1 to 8 or 14.
pub fn table_verdict(image: &[u8]) -> Result<Table<'_>, Refusal>
    ensures told { judged result ≡ table_verdict image.now }
    ensures of_image { IfOk result (λ t. t.image.now ≡ image.now) }
{
    let mut before = [0u64; 64];
    judge_table(image, &mut before)
}

// An image that is a patch, or its refusal, 21 to 27.
pub fn patch_verdict(image: &[u8]) -> Result<Patch<'_>, Refusal>
    ensures told { judged result ≡ patch_verdict image.now }
    ensures of_image { IfOk result (λ p. p.image.now ≡ image.now) }
{
    frame_verdict(Form::Patch, image)?;
    check_records(Form::Patch, image)?;
    Ok(Patch { image })
}
