// What keeps one task of an accepted table from being preempted by another: a one-way pair, or that one of them comes before the
// other.
ghost use Rattle.std.specs.Prelude.{◌≡◌, ◌&&◌, ◌||◌, ◌<◌, eqb};
ghost use Rattle.rules.specs.Blocks.{records};
ghost use Rattle.rules.specs.Records.{sort_of, task_at};
ghost use Rattle.rules.specs.Preempt.{names, paired, barred, cell};
ghost use Rattle.table.specs.Precedence.{before_map};

use image::bytes::{byte_at, two_bytes};
use rules::Sort;
use sets::bits::is_set;
use table::accepted::Table;

// Whether a pair record is one-way and names first low, then high.
fn forbids(fields: &[u8], low: u32, high: u32) -> bool
    ensures { result ≡ (eqb (sort_of fields.now) 0 && names fields.now low high) }
{
    byte_at(fields, 1) == u32::from(Sort::OneWay)
        && two_bytes(fields, 2) == low
        && two_bytes(fields, 4) == high
}

// Whether a one-way pair of the table forbids that the task with the id low is preempted by the one with the id high.
fn is_forbidden(table: &Table, low: u32, high: u32) -> bool
    ensures { result ≡ paired 0 (records table.now.image.now) low high }
{
    (0..table.pairs).any(|k| forbids(table.pair_record(k), low, high))
}

// The id of the task at a place.
fn id_at(table: &Table, place: usize) -> u32
    requires { place < table.now.tasks }
    ensures { result ≡ (task_at (records table.now.image.now) place).id }
{
    two_bytes(table.task_record(place), 2)
}

// Whether one of the tasks at two places comes before the other, by rows of which come before which.
fn is_beside(before: &[u64; 64], i: usize, j: usize) -> bool
    requires { (i < 64) × (j < 64) }
    ensures { result ≡ (cell before.now i j || cell before.now j i) }
{
    is_set(before[i], j) || is_set(before[j], i)
}

// Whether the task at place i may not be preempted by the one at place j. The rows of before say which tasks come before which.
pub fn is_barred(table: &Table, before: &[u64; 64], i: usize, j: usize) -> bool
    requires before_known { before.now ≡ before_map (records table.now.image.now) }
    requires in_bounds { (i < table.now.tasks) × (j < table.now.tasks) }
    ensures { result ≡ barred (records table.now.image.now) (task_at (records table.now.image.now) i).id (task_at (records table.now.image.now) j).id }
{
    is_beside(before, i, j) || is_forbidden(table, id_at(table, i), id_at(table, j))
}
