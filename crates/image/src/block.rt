// One block, handed over as a part of the image: its check, its header and its fill.
ghost use Rattle.std.specs.Prelude.{◌≡◌, not, ◌+◌, ◌*◌, ◌-◌, ◌≤◌, ◌<◌, length};
ghost use Rattle.rules.specs.Numbers.{blank};
ghost use Rattle.rules.specs.Blocks.{mark, check_of, check_wrong, count_right, mark_wrong, header_wrong};

use crate::bytes::{byte_at, is_blank, two_bytes};
use rules::Form;

// The check that the first 510 bytes of a block call for. Byte i is in each of the sums from its own on, so that 511 times
// the last sum less all of them has it i + 1 times: two additions for each byte, and no product.
pub fn check_of(block: &[u8]) -> u32
    requires { 510 ≤ length block.now }
    ensures right { result ≡ check_of block.now }
    ensures in_two_bytes { result < 65521 }
{
    let mut sum: u32 = 0;
    let mut sums: u32 = 0;
    for byte in &block[..510] {
        sum += u32::from(*byte);
        sums += sum;
    }
    (511 * sum - sums) % 65521
}

// Whether the stored check is not the one that the block's bytes call for.
pub fn is_check_wrong(block: &[u8]) -> bool
    requires { 510 ≤ length block.now }
    ensures { result ≡ check_wrong block.now }
{
    two_bytes(block, 510) != check_of(block)
}

// The letters of the form.
pub fn mark(form: Form) -> [u8; 2]
    ensures { result ≡ mark form }
{
    match form {
        Form::Table => *b"TB",
        Form::Patch => *b"PA",
    }
}

// Whether a block starts with other letters than its form's.
fn is_mark_wrong(form: Form, block: &[u8]) -> bool
    ensures { result ≡ mark_wrong form block.now }
{
    let [first, second] = mark(form);
    byte_at(block, 0) != u32::from(first) || byte_at(block, 1) != u32::from(second)
}

// Whether block b of total may hold count records.
fn is_count_right(total: u32, b: u32, count: u32) -> bool
    requires { b < total }
    ensures { result ≡ count_right total b count }
{
    if b + 1 == total {
        count <= 15 && (1 <= count || total == 1)
    } else {
        count == 15
    }
}

// Whether the header, the count or the zero fill of block b of total is wrong.
#[tactic(auto, unfolding(rules::specs::Blocks::header_wrong))]
pub fn is_header_wrong(form: Form, total: u32, b: u32, block: &[u8]) -> bool
    requires { b < total }
    ensures { result ≡ header_wrong form total b block.now }
{
    let count = byte_at(block, 4);
    is_mark_wrong(form, block)
        || byte_at(block, 2) != b
        || byte_at(block, 3) != total
        || !is_count_right(total, b, count)
        || !is_blank(block, 5, 3)
        || is_fill_wrong(block, count)
}

// Whether a byte between the last of count records and the check is not zero.
fn is_fill_wrong(block: &[u8], count: u32) -> bool
    ensures { result ≡ not (blank block.now (8 + 32 * count) (502 - 32 * count)) }
{
    let used = 32 * count as usize;
    !is_blank(block, 8 + used, 502_usize.saturating_sub(used))
}
