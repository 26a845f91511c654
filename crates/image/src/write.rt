// Writes an image from records, block by block, straight into a lent room.
ghost use Rattle.std.specs.Prelude.{◌≡◌, ◌*◌, ◌%◌, ◌/◌, ◌≤◌, ◌<◌, length, take, unwrap_or, IfSome};
ghost use Rattle.rules.specs.Blocks.{mark, blocks_for, with_check, image_of};
ghost use Rattle.rules.specs.Calls.{over, cut, blocks_of, written_length, written_room};
ghost use Rattle.image.specs.Write.{header_of, body_behind};

use crate::block::{check_of, mark};
use crate::frame::most_blocks;
use rules::Form;

// The bytes of a block's fifteen places.
const PLACES_BYTES: usize = 480;

// Copies all bytes of one part over the start of another. It is a loop, since the method of slices would let the archive call memmove
// besides memcpy and memset.
pub fn copy_bytes(from: &[u8], to: &mut [u8])
    requires { length from.now ≤ length to.old }
    ensures { to.new ≡ over from.now to.old }
{
    for k in 0..from.len() {
        to[k] = from[k];
    }
}

// The eight bytes in front of the records of block b of total.
fn header(form: Form, total: u8, b: u8, count: u8) -> [u8; 8]
    ensures { result ≡ header_of form total b count }
{
    let [first, second] = mark(form);
    [first, second, b, total, count, 0, 0, 0]
}

// Writes a header over the start of a block. Each byte goes by itself, since LLVM compiles a copy of all eight to code that no browser
// accepts.
fn write_front(header: &[u8; 8], block: &mut [u8])
    requires { 8 ≤ length block.old }
    ensures { block.new ≡ over header.now block.old }
{
    let [mark_0, mark_1, b, total, count, zero_5, zero_6, zero_7] = *header;
    block[0] = mark_0;
    block[1] = mark_1;
    block[2] = b;
    block[3] = total;
    block[4] = count;
    block[5] = zero_5;
    block[6] = zero_6;
    block[7] = zero_7;
}

// Writes header, records and zero fill of a block: all but the check.
fn write_body(header: &[u8; 8], records: &[u8], block: &mut [u8])
    requires few_records { length records.now ≤ 480 }
    requires one_block { length block.old ≡ 512 }
    ensures { block.new ≡ over (body_behind header.now records.now) block.old }
{
    let end = 8 + records.len();
    write_front(header, block);
    copy_bytes(records, &mut block[8..end]);
    block[end..510].fill(0);
}

// Writes the check that the first 510 bytes call for into the last two, each by itself as the bytes of a header.
fn write_check(block: &mut [u8])
    requires { length block.old ≡ 512 }
    ensures { block.new ≡ with_check (take 510 block.old) }
{
    let check = check_of(block) as u16;
    let [low, high] = check.to_le_bytes();
    block[510] = low;
    block[511] = high;
}

// Writes a whole block.
fn write_block(header: &[u8; 8], records: &[u8], block: &mut [u8])
    requires few_records { length records.now ≤ 480 }
    requires one_block { length block.old ≡ 512 }
    ensures { block.new ≡ with_check (body_behind header.now records.now) }
{
    write_body(header, records, block);
    write_check(block);
}

// Writes the blocks of an image that has room, one after another.
fn write_blocks(form: Form, records: &[u8], total: usize, room: &mut [u8])
    requires whole_records { length records.now % 32 ≡ 0 }
    requires all_blocks { total ≡ blocks_of records.now }
    requires few_blocks { total ≤ 45 }
    requires in_bounds { 512 * total ≤ length room.old }
    ensures { room.new ≡ over (image_of form (cut records.now)) room.old }
{
    for b in 0..total {
        let from = PLACES_BYTES * b;
        let to = records.len().min(from + PLACES_BYTES);
        let held = &records[from..to];
        let count = held.len() / rules::RECORD_BYTES;
        let start = rules::BLOCK_BYTES * b;
        let end = start + rules::BLOCK_BYTES;
        let front = header(form, total as u8, b as u8, count as u8);
        write_block(&front, held, &mut room[start..end]);
    }
}

// How many blocks records of this many bytes fill.
fn blocks_of(bytes: usize) -> usize
    ensures { result ≡ blocks_for (bytes / 32) }
{
    let records = bytes / rules::RECORD_BYTES;
    records.div_ceil(rules::RECORDS_PER_BLOCK).max(1)
}

// Writes the image of the records that lie one after another, 32 bytes each, over the start of the room, and answers
// its length in bytes. Writes nothing where the bytes are no whole records, or fill more blocks than the form may have
// or the room holds.
#[tactic(auto, unfolding(rules::specs::Calls::writable))]
pub fn write_image(form: Form, records: &[u8], room: &mut [u8]) -> Option<usize>
    ensures length_written { unwrap_or result 0 ≡ written_length form records.now room.old }
    ensures not_empty { IfSome result (λ length. 0 < length) }
    ensures room_written { room.new ≡ written_room form records.now room.old }
{
    if records.len() % rules::RECORD_BYTES != 0 {
        return None;
    }
    let total = blocks_of(records.len());
    if most_blocks(form) < total {
        return None;
    }
    let length = rules::BLOCK_BYTES * total;
    if room.len() < length {
        return None;
    }
    write_blocks(form, records, total, room);
    Some(length)
}
