// The map: 64 rows of 64 cells, a number for each row.
ghost use Rattle.std.specs.Prelude.{◌≡◌, true, ◌≤◌, ◌<◌, length};
ghost use Rattle.rules.specs.Blocks.{records};
ghost use Rattle.rules.specs.Preempt.{row_from, map_from, map_of};
ghost use Rattle.rules.specs.Refusals.{accepted, table_verdict};
ghost use Rattle.rules.specs.Calls.{over, map_verdict, map_after};
ghost use Rattle.rules.specs.Told.{judged};
ghost use Rattle.table.specs.Precedence.{before_map};
ghost use Rattle.preempt.specs.Tasks.{decided_on, decided_by};

use crate::barred::mark_one_way;
use crate::columns::Columns;
use crate::decide::may_preempt;
use crate::tasks::read_tasks;
use rules::Refusal;
use sets::bits::is_set;
use sets::places::{by_place, places_where};
use sets::rows::both_ways;
use table::accepted::Table;
use table::judge_table;

// Whether the task at place i may be preempted by the one at place j; bars holds the places that are barred from it.
#[tactic(auto, unfolding(crate::specs::Tasks::decided_on))]
pub fn may_preempt_at(columns: &Columns, bars: u64, i: usize, j: usize) -> bool
    requires { (i < 64) × (j < 64) }
    ensures { result ≡ decided_on columns.now bars i j }
{
    let low = columns.task_read(i);
    let high = columns.task_read(j);
    may_preempt(columns.period_read(i), is_set(bars, j), low, high)
}

// Row i of the map: a bit for each task that may preempt the one at place i.
pub fn decided_row(columns: &Columns, count: usize, bars: u64, i: usize) -> u64
    requires { (i < 64) × (count ≤ 64) }
    ensures { result ≡ row_from count (decided_on columns.now bars i) }
{
    places_where(count, |j| may_preempt_at(columns, bars, i, j))
}

// The map of the tasks, where the rows of barred say which places are barred from which.
fn map_of(columns: &Columns, barred: &[u64; 64], count: usize) -> [u64; 64]
    requires { count ≤ 64 }
    ensures { result ≡ map_from count (decided_by columns.now barred.now) }
{
    by_place(count, 0, |i| decided_row(columns, count, barred[i], i))
}

// Writes the 64 rows of a map over the start of a lent one. It is a loop, as `copy_bytes` of image is.
pub fn write_rows(map: [u64; 64], lent: &mut [u64])
    requires { (length map ≡ 64) × (64 ≤ length lent.old) }
    ensures { lent.new ≡ over map lent.old }
{
    for i in 0..64 {
        lent[i] = map[i];
    }
}

// The map of an accepted table, of whose tasks before says which come before which.
fn table_map(table: &Table, before: [u64; 64]) -> [u64; 64]
    requires { before ≡ before_map (records table.now.image.now) }
    ensures { result ≡ map_of (records table.now.image.now) }
{
    let tasks = read_tasks(table);
    let mut rows = before;
    both_ways(&mut rows, table.tasks);
    mark_one_way(&mut rows, table, &tasks.columns.ids);
    map_of(&tasks.columns, &rows, table.tasks)
}

// Fills a lent map from a table image: the map of the table in the first 64 rows. A refusal writes nothing.
pub fn fill_map(image: &[u8], rows: &mut [u64]) -> Result<(), Refusal>
    ensures told { judged result ≡ map_verdict image.now rows.old }
    ensures rows_after { rows.new ≡ map_after image.now rows.old }
{
    let mut before = [0u64; 64];
    let table = judge_table(image, &mut before)?;
    if rows.len() < 64 {
        return Err(Refusal::Short);
    }
    write_rows(table_map(&table, before), rows);
    Ok(())
}
