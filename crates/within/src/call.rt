// A bound call with a limit on the chains that 001's Algorithm 1 opens.
ghost use Rattle.std.specs.Prelude.{◌≤◌, length, Ok};
ghost use Rattle.rules.specs.Blocks.{records};
ghost use Rattle.rules.specs.Told.{within_told};
ghost use Rattle.rules.specs.Calls.{WithinCall};
ghost use Rattle.stack.specs.Setting.{Ready, RowsRise};
ghost use Rattle.within.specs.Calls.{WithinOver};

use crate::opening::tally_chains;
use preempt::tasks::{Tasks, read_tasks};
use rules::{Refusal, WithinFound};
use stack::call::{Prepared, bounds_over, prepare};
use stack::own::transaction_bound;
use stack::path::path_bound;
use table::table_verdict;

// The answer for an accepted table, from what was read of its tasks, the rows of the relation and the order of the places.
fn within_over(tasks: &Tasks, prepared: &Prepared, ids: &mut [u16], limit: u32) -> WithinFound
    requires ready { Ready tasks.now.table.tasks prepared.now.rows tasks.now.columns.sizes prepared.now.order }
    requires rises { RowsRise tasks.now.table.tasks prepared.now.rows tasks.now.columns.priorities }
    requires in_bounds { 64 ≤ length ids.old }
    ensures { WithinOver (records tasks.now.table.image.now) prepared.now.rows ids.old limit (within_told (Ok result)) ids.new }
{
    let ordered = prepared.ordered(tasks);
    let tally = tally_chains(&ordered, limit);
    if tally.is_spent() {
        let path = path_bound(&ordered);
        let transactions = transaction_bound(&tasks.table, &tasks.columns.transactions, &ordered);
        return WithinFound::GaveUp { path, transactions };
    }
    WithinFound::Opened(bounds_over(tasks, prepared, ids), tally.opened(limit))
}

// The bounds of a table image over a lent map of any contents, and the number of chains that 001's Algorithm 1 opens for them.
// Where it is above the limit, the path and transactions bounds alone. The chain's ids go to the lent room; a refusal writes
// nothing.
pub fn bounds_within(
    image: &[u8],
    map: &[u64],
    ids: &mut [u16],
    limit: u32,
) -> Result<WithinFound, Refusal>
    ensures { WithinCall image.now map.now ids.old limit (within_told result) ids.new }
{
    let table = table_verdict(image)?;
    if map.len() < 64 || ids.len() < 64 {
        return Err(Refusal::Short);
    }
    let tasks = read_tasks(&table);
    let prepared = prepare(&tasks.columns, tasks.table.tasks, map);
    Ok(within_over(&tasks, &prepared, ids, limit))
}
