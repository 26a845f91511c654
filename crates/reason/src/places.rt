// The reason for two places of an accepted table.
ghost use Rattle.std.specs.Prelude.{◌≡◌, ◌<◌};
ghost use Rattle.rules.specs.Blocks.{records};
ghost use Rattle.rules.specs.Preempt.{reason_at};
ghost use Rattle.table.specs.Precedence.{before_map};

use crate::pairs::is_barred;
use preempt::decide::reason_of;
use preempt::tasks::{period_at, task_at};
use rules::Reason;
use table::accepted::Table;

// Why the task at place i may be preempted by the one at place j, or why not, in an accepted table of whose tasks before says which
// come before which.
#[tactic(auto, unfolding(rules::specs::Preempt::reason_at))]
pub fn reason_at(table: &Table, before: &[u64; 64], i: usize, j: usize) -> Reason
    requires before_known { before.now ≡ before_map (records table.now.image.now) }
    requires in_bounds { (i < table.now.tasks) × (j < table.now.tasks) }
    ensures { result ≡ reason_at (records table.now.image.now) i j }
{
    let period = period_at(table, i);
    let low = task_at(table, i, period);
    let high = task_at(table, j, period_at(table, j));
    let barred = is_barred(table, before, i, j);
    reason_of(period, barred, low, high)
}
