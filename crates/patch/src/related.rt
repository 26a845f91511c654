// An outcome's tasks, and what is known of any two of them.
ghost use Rattle.std.specs.Prelude.{◌≡◌, ◌≤◌};
ghost use Rattle.rules.specs.Blocks.{records};
ghost use Rattle.table.specs.Precedence.{before_map, beside_map};
ghost use Rattle.preempt.specs.Tasks.{barred_map};

use preempt::barred::mark_one_way;
use preempt::tasks::{Tasks, read_tasks};
use sets::rows::both_ways;
use table::accepted::Table;

// The tasks of a table; by their places which come before or after which, and which may not be preempted by which.
#[derive(Drop)]
pub struct Related<'a> {
    pub tasks: Tasks<'a>,
    pub beside: [u64; 64],
    pub barred: [u64; 64],
    ghost few: { tasks.table.tasks ≤ 64 },
    ghost paths: { beside ≡ beside_map (records tasks.table.image.now) },
    ghost bars: { barred ≡ barred_map (records tasks.table.image.now) },
}

// The tasks of a table of which it is known which come before which.
pub fn relate<'a>(table: &Table<'a>, before: [u64; 64]) -> Related<'a>
    requires { before ≡ before_map (records table.now.image.now) }
    ensures { result.tasks.table ≡ table.now }
{
    let tasks = read_tasks(table);
    let mut beside = before;
    both_ways(&mut beside, table.tasks);
    let mut barred = beside;
    mark_one_way(&mut barred, table, &tasks.columns.ids);
    Related {
        tasks,
        beside,
        barred,
    }
}
