// The carried map: only cells with a touched task are decided again, any other is the lent map's.
ghost use Rattle.std.specs.Prelude.{◌≡◌, ◌≤◌, ◌<◌, length, get_or};
ghost use Rattle.rules.specs.Blocks.{records};
ghost use Rattle.rules.specs.Records.{tasks as Records·tasks, place_of as Records·place_of};
ghost use Rattle.rules.specs.Preempt.{row_from, map_from, bit_at};
ghost use Rattle.rules.specs.Patches.{outcome as Patches·outcome};
ghost use Rattle.sets.specs.Bits.{column};
ghost use Rattle.table.specs.Numbers.{Directory};
ghost use Rattle.table.specs.Precedence.{before_map};
ghost use Rattle.patch.specs.Carried.{cell_carried, cell_new, MapCarried};

use crate::change::Change;
use crate::related::{Related, relate};
use crate::touched::{count_places, touched_tasks};
use preempt::map::{decided_row, may_preempt_at};
use sets::bits::is_set;
use sets::places::{by_place, places_where};
use table::accepted::Table;
use table::place::{numbers_from, place_of};

// The new map, and how many tasks are touched.
#[derive(Drop)]
pub struct Carried {
    pub map: [u64; 64],
    pub touched: u32,
}

// What the new map is made from: the outcome's tasks, those that are touched, and where the base has them.
#[derive(Drop)]
pub struct Standing<'a> {
    pub related: Related<'a>,
    pub touched: u64,
    pub old: [u32; 64],
}

// The ids of a table's tasks, in a list that is searched by halving.
fn ids_of(table: &Table) -> [u32; 64]
    ensures { Directory (Records·tasks (records table.now.image.now)) result table.now.tasks }
{
    numbers_from(table.image, table.transactions, table.tasks)
}

// Where the base, whose tasks have these ids, has the task with an id. Where it has none that is the number of its tasks, as it is
// defined, so it is no Option.
fn old_place(base: &Table, base_ids: &[u32; 64], id: u32) -> u32
    requires { Directory (Records·tasks (records base.now.image.now)) base_ids.now base.now.tasks }
    ensures { result ≡ Records·place_of (Records·tasks (records base.now.image.now)) id }
{
    place_of(base_ids, base.tasks, id).unwrap_or(base.tasks) as u32
}

// Where the base has the tasks of the outcome. Its ids are read once for all of them.
fn old_places(base: &Table, related: &Related) -> [u32; 64]
    ensures { result ≡ column related.now.tasks.table.tasks (λ i. Records·place_of (Records·tasks (records base.now.image.now)) (get_or related.now.tasks.columns.ids i 0)) }
{
    let base_ids = ids_of(base);
    let ids = &related.tasks.columns.ids;
    by_place(related.tasks.table.tasks, 0, |i| {
        old_place(base, &base_ids, ids[i])
    })
}

// The row of a lent map at a place. A row that it does not have is 0.
fn base_row(rows: &[u64], place: u32) -> u64
    ensures { result ≡ get_or rows.now place 0 }
{
    let place = place as usize;
    if place < rows.len() { rows[place] } else { 0 }
}

// Whether a row has a cell set. It has none beyond 64 cells.
#[tactic(auto, using(crate::proofs::Carrying::no_such_cell))]
fn is_cell_set(bits: u64, place: u32) -> bool
    ensures { result ≡ bit_at bits place }
{
    let j = place as usize;
    j < 64 && is_set(bits, j)
}

impl<'a> Standing<'a> {
    // Whether cell j is set in the new row i of a task that is not touched: with a touched task it is decided, and any other is
    // that of the base's row, which has it where the other task stood.
    #[tactic(auto, unfolding(crate::specs::Carried::cell_carried))]
    fn is_carried_set(&self, row: u64, i: usize, j: usize) -> bool
        requires { (i < 64) × (j < 64) }
        ensures { result ≡ cell_carried self.now row i j }
    {
        if is_set(self.touched, j) {
            return may_preempt_at(&self.related.tasks.columns, self.related.barred[i], i, j);
        }
        is_cell_set(row, self.old[j])
    }

    // Row i of the new map from the base's row, for a task that is not touched.
    fn carried_row(&self, row: u64, i: usize) -> u64
        requires { i < 64 }
        ensures { result ≡ row_from self.now.related.tasks.table.tasks (cell_carried self.now row i) }
    {
        places_where(self.related.tasks.table.tasks, |j| {
            self.is_carried_set(row, i, j)
        })
    }

    // Row i of the new map. Whether its task is touched, so that each of its cells is decided, is asked once for all of them.
    fn new_row(&self, rows: &[u64], i: usize) -> u64
        requires { i < 64 }
        ensures { result ≡ row_from self.now.related.tasks.table.tasks (cell_new self.now rows.now i) }
    {
        let related = &self.related;
        if is_set(self.touched, i) {
            return decided_row(
                &related.tasks.columns,
                related.tasks.table.tasks,
                related.barred[i],
                i,
            );
        }
        self.carried_row(base_row(rows, self.old[i]), i)
    }

    // The rows of the new map.
    fn carried_rows(&self, rows: &[u64]) -> [u64; 64]
        ensures { result ≡ map_from self.now.related.tasks.table.tasks (cell_new self.now rows.now) }
    {
        by_place(self.related.tasks.table.tasks, 0, |i| self.new_row(rows, i))
    }
}

// The map of an accepted outcome from the base's map, and how many of its tasks the patch touches. The rows of before say which of
// the outcome's tasks come before which.
pub fn carry_map(change: &Change, outcome: &Table, before: [u64; 64], rows: &[u64]) -> Carried
    requires of_change { records outcome.now.image.now ≡ Patches·outcome (records change.now.base.image.now) (records change.now.patch.image.now) }
    requires before_known { before ≡ before_map (records outcome.now.image.now) }
    ensures { MapCarried (records change.now.base.image.now) (records change.now.patch.image.now) rows.now result }
{
    let related = relate(outcome, before);
    let touched = touched_tasks(&change.patch, &related);
    let old = old_places(&change.base, &related);
    let standing = Standing {
        related,
        touched,
        old,
    };
    Carried {
        map: standing.carried_rows(rows),
        touched: count_places(touched, outcome.tasks),
    }
}
