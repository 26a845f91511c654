// Refusal 6: a field out of the range that needs no other record.
ghost use Rattle.std.specs.Prelude.{◌≡◌, [], get_or};
ghost use Rattle.rules.specs.Blocks.{records, record_count};
ghost use Rattle.rules.specs.Records.{transaction_right, name_right, jitter_right, time_right, threshold_right, task_right, pair_right, range_wrong};
ghost use Rattle.image.specs.First.{first};
ghost use Rattle.image.specs.Held.{HoldsRecords};

use image::bytes::{byte_at, four_bytes, two_bytes};
use image::records::{record_at, record_count};
use rules::Kind;

// Whether number and period of a transaction are in range.
fn is_transaction_right(fields: &[u8]) -> bool
    ensures { result ≡ transaction_right fields.now }
{
    let period = four_bytes(fields, 8);
    1 <= two_bytes(fields, 2) && 1 <= period && period <= 1_000_000_000
}

// Whether a threshold is 0 or not below the priority.
fn is_threshold_right(priority: u32, threshold: u32) -> bool
    ensures { result ≡ threshold_right priority threshold }
{
    threshold == 0 || priority <= threshold
}

// Whether id, transaction, priority and threshold of a task are in range.
fn is_name_right(fields: &[u8]) -> bool
    ensures { result ≡ name_right fields.now }
{
    let priority = two_bytes(fields, 6);
    1 <= two_bytes(fields, 2)
        && 1 <= two_bytes(fields, 4)
        && 1 <= priority
        && priority <= 255
        && is_threshold_right(priority, byte_at(fields, 22))
}

// Whether a jitter is in range or missing.
fn is_jitter_right(jitter: u32) -> bool
    ensures { result ≡ jitter_right jitter }
{
    jitter <= 1_000_000_000 || jitter == u32::MAX
}

// Whether offset, jitter and response of a task are in range.
fn is_time_right(fields: &[u8]) -> bool
    ensures { result ≡ time_right fields.now }
{
    let offset = four_bytes(fields, 8);
    let response = four_bytes(fields, 16);
    offset <= 999_999_999
        && is_jitter_right(four_bytes(fields, 12))
        && offset <= response
        && response <= 2_000_000_000
}

// Whether all of a task is in range, its size too.
fn is_task_right(fields: &[u8]) -> bool
    ensures { result ≡ task_right fields.now }
{
    is_name_right(fields) && is_time_right(fields) && 1 <= two_bytes(fields, 20)
}

// Whether a pair is of a known sort and names two different tasks.
fn is_pair_right(fields: &[u8]) -> bool
    ensures { result ≡ pair_right fields.now }
{
    let first = two_bytes(fields, 2);
    let second = two_bytes(fields, 4);
    byte_at(fields, 1) <= 1 && 1 <= first && 1 <= second && first != second
}

// Whether a field is out of range: what is of no kind has the ranges of a pair.
fn is_range_wrong(fields: &[u8]) -> bool
    ensures { result ≡ range_wrong fields.now }
{
    let Ok(kind) = Kind::try_from(byte_at(fields, 0)) else {
        return !is_pair_right(fields);
    };
    match kind {
        Kind::Transaction => !is_transaction_right(fields),
        Kind::Task => !is_task_right(fields),
        Kind::Pair => !is_pair_right(fields),
    }
}

// The first record with a field out of range.
pub fn first_wrong_range(image: &[u8]) -> Option<usize>
    requires held { HoldsRecords image.now }
    ensures { result ≡ first (λ k. range_wrong (get_or (records image.now) k [])) (record_count image.now) }
{
    (0..record_count(image)).find(|&k| is_range_wrong(record_at(image, k)))
}
