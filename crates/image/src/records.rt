// Where an image's records stand: one after another, across blocks.
ghost use Rattle.std.specs.Prelude.{◌≡◌, ◌+◌, ◌^◌, ◌≤◌, ◌<◌, length};
ghost use Rattle.rules.specs.Blocks.{record_start, record_at, record_count};

use crate::bytes::byte_at;

// How many records an image holds, by the count of its last block.
pub fn record_count(image: &[u8]) -> usize
    ensures { result ≡ record_count image.now }
{
    let full = (image.len() / rules::BLOCK_BYTES).saturating_sub(1);
    let held = byte_at(image, rules::BLOCK_BYTES * full + 4) as usize;
    rules::RECORDS_PER_BLOCK * full + held
}

// Where record k starts: behind the blocks before its own, the block's header and the records before it.
pub fn record_start(k: usize) -> usize
    requires { record_start k < 2 ^ 64 }
    ensures { result ≡ record_start k }
{
    rules::BLOCK_BYTES * (k / rules::RECORDS_PER_BLOCK)
        + 8
        + rules::RECORD_BYTES * (k % rules::RECORDS_PER_BLOCK)
}

// The 32 bytes of record k, as a part of an image that holds it whole. Their number is known where it is called, so that
// the fields are read without a test.
pub fn record_at(image: &[u8], k: usize) -> &[u8]
    requires { record_start k + 32 ≤ length image.now }
    ensures { result.now ≡ record_at image.now k }
{
    let start = record_start(k);
    let end = start + rules::RECORD_BYTES;
    &image[start..end]
}

// The bytes of record k that lie in the image, as a part of it: past the image's end there are fewer than 32 or none.
#[tactic(auto, using(crate::proofs::Parts::part_clipped, crate::proofs::Parts::part_past))]
pub fn record_part(image: &[u8], k: usize) -> &[u8]
    ensures { result.now ≡ record_at image.now k }
{
    let length = image.len();
    if length / rules::BLOCK_BYTES < k / rules::RECORDS_PER_BLOCK {
        return &image[length..length];
    }
    let start = record_start(k);
    let from = start.min(length);
    let to = (start + rules::RECORD_BYTES).min(length);
    &image[from..to]
}
