// What is barred in a table, as rows of bits by the places of the tasks.
ghost use Rattle.std.specs.Prelude.{◌≡◌, true};
ghost use Rattle.rules.specs.Blocks.{records};
ghost use Rattle.rules.specs.Records.{tasks};
ghost use Rattle.table.specs.Numbers.{Directory};
ghost use Rattle.table.specs.Precedence.{beside_map};
ghost use Rattle.preempt.specs.Tasks.{barred_map};

use rules::Sort;
use table::accepted::Table;
use table::pairs::mark_pairs;

// Adds the one-way pairs of an accepted table, whose tasks have these ids, to rows of which tasks come before or after which: cell j
// of row i is then set where the task at place i may not be preempted by the one at place j.
pub fn mark_one_way(rows: &mut [u64; 64], table: &Table, ids: &[u32])
    requires tasks_listed { Directory (tasks (records table.now.image.now)) ids.now table.now.tasks }
    requires beside { rows.old ≡ beside_map (records table.now.image.now) }
    ensures { rows.new ≡ barred_map (records table.now.image.now) }
{
    mark_pairs(rows, table.image, ids, table.tasks, u32::from(Sort::OneWay));
}
