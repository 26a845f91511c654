// The verdict on an image's blocks: 1 to 3 for a table, 21 to 23 for a patch.
ghost use Rattle.std.specs.Prelude.{◌≡◌, ◌≤◌, ◌<◌, length};
ghost use Rattle.rules.specs.Blocks.{most_blocks, block_count, block_at, length_wrong, check_wrong, header_wrong};
ghost use Rattle.rules.specs.Refusals.{frame_verdict};
ghost use Rattle.rules.specs.Told.{judged};
ghost use Rattle.image.specs.First.{first};

use crate::block::{is_check_wrong, is_header_wrong};
use rules::{Fault, Form, Refusal};

// The most blocks that an image of the form may have.
pub fn most_blocks(form: Form) -> usize
    ensures { (result ≡ most_blocks form) × (result ≤ 45) }
{
    match form {
        Form::Table => rules::TABLE_BLOCKS,
        Form::Patch => rules::PATCH_BLOCKS,
    }
}

// Whether the length is 0, no multiple of a block, or too many blocks.
fn is_length_wrong(form: Form, image: &[u8]) -> bool
    ensures { result ≡ length_wrong form image.now }
{
    let length = image.len();
    length == 0
        || length % rules::BLOCK_BYTES != 0
        || most_blocks(form) < length / rules::BLOCK_BYTES
}

// Block b of an image, as a part of it.
#[tactic(auto, using(crate::proofs::Parts::part_size, crate::proofs::Parts::part_length))]
fn block_part(image: &[u8], b: usize) -> &[u8]
    requires { b < block_count image.now }
    ensures right { result.now ≡ block_at image.now b }
    ensures whole { length result.now ≡ 512 }
{
    let start = rules::BLOCK_BYTES * b;
    let end = start + rules::BLOCK_BYTES;
    &image[start..end]
}

// The first block with a wrong check.
fn first_wrong_check(image: &[u8]) -> Option<usize>
    ensures { result ≡ first (λ b. check_wrong (block_at image.now b)) (block_count image.now) }
{
    let total = image.len() / rules::BLOCK_BYTES;
    (0..total).find(|&b| is_check_wrong(block_part(image, b)))
}

// The first block with a wrong header, count or fill.
fn first_wrong_header(form: Form, image: &[u8]) -> Option<usize>
    requires { block_count image.now ≤ 45 }
    ensures { result ≡ first (λ b. header_wrong form (block_count image.now) b (block_at image.now b)) (block_count image.now) }
{
    let total = image.len() / rules::BLOCK_BYTES;
    (0..total).find(|&b| is_header_wrong(form, total as u32, b as u32, block_part(image, b)))
}

// What is wrong with the blocks, if anything: length, then checks, then headers, each over the whole image before the next.
#[tactic(auto, using(crate::proofs::First::refuse_at_first, crate::proofs::First::refuse_at_no_first), unfolding(rules::specs::Refusals::frame_verdict))]
pub fn frame_verdict(form: Form, image: &[u8]) -> Result<(), Refusal>
    ensures { judged result ≡ frame_verdict form image.now }
{
    if is_length_wrong(form, image) {
        return Err(Refusal::Image(form, Fault::Length));
    }
    if let Some(block) = first_wrong_check(image) {
        return Err(Refusal::Image(form, Fault::Check(block as u32)));
    }
    if let Some(block) = first_wrong_header(form, image) {
        return Err(Refusal::Image(form, Fault::Header(block as u32)));
    }
    Ok(())
}
