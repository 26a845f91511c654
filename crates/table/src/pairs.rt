// The pairs of a table, read into rows of cells by the places of their tasks.
ghost use Rattle.std.specs.Prelude.{◌≡◌, cond, ◌≤◌, ◌<◌, eqb, length};
ghost use Rattle.rules.specs.Blocks.{records};
ghost use Rattle.rules.specs.Records.{number_of, second_of, sort_of, tasks};
ghost use Rattle.sets.specs.Bits.{with_cell};
ghost use Rattle.sets.specs.Closing.{IsMap};
ghost use Rattle.table.specs.Numbers.{Rising, place_among, Directory};
ghost use Rattle.table.specs.Precedence.{SoundRecords, with_pairs};

use crate::listing::count_of;
use crate::place::place_of;
use image::bytes::{byte_at, two_bytes};
use image::records::record_at;
use rules::Kind;
use sets::rows::set_cell;

// Sets the cell of the two tasks that a pair record names, where it is of this sort.
fn mark_pair(rows: &mut [u64], ids: &[u32], known: usize, sort: u32, fields: &[u8])
    requires in_bounds { (64 ≤ length rows.old) × (known ≤ length ids.now) × (known ≤ 64) }
    requires rising { Rising ids.now known }
    requires first_listed { place_among ids.now known (number_of fields.now) < known }
    requires second_listed { place_among ids.now known (second_of fields.now) < known }
    ensures { rows.new ≡ cond (eqb (sort_of fields.now) sort) (with_cell rows.old (place_among ids.now known (number_of fields.now)) (place_among ids.now known (second_of fields.now))) rows.old }
{
    if byte_at(fields, 1) != sort {
        return;
    }
    let Some(first) = place_of(ids, known, two_bytes(fields, 2)) else {
        return;
    };
    let Some(second) = place_of(ids, known, two_bytes(fields, 4)) else {
        return;
    };
    set_cell(rows, first, second);
}

// Sets the cells of the pairs of this sort besides: cell j of row i where one names the task at place i first and the one at
// place j second. The tasks have these ids. It answers for every number, of which two are a Sort.
pub fn mark_pairs(rows: &mut [u64; 64], image: &[u8], ids: &[u32], known: usize, sort: u32)
    requires sound_records { SoundRecords image.now }
    requires tasks_listed { Directory (tasks (records image.now)) ids.now known }
    requires map { IsMap known rows.old }
    ensures { rows.new ≡ with_pairs sort (records image.now) rows.old }
{
    let first = count_of(image, Kind::Transaction) + known;
    let count = count_of(image, Kind::Pair);
    for k in 0..count {
        mark_pair(rows, ids, known, sort, record_at(image, first + k));
    }
}
