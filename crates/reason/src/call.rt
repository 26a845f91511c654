// The reason call: why the task with one id may be preempted by the task with another, or why not.
ghost use Rattle.std.specs.Prelude.{◌≡◌, ◌<◌, not, IfOk};
ghost use Rattle.rules.specs.Blocks.{records};
ghost use Rattle.rules.specs.Records.{tasks, place_of, listed};
ghost use Rattle.rules.specs.Calls.{reason_answer};
ghost use Rattle.rules.specs.Refusals.{unlisted_refusal};
ghost use Rattle.rules.specs.Told.{judged, reason_told};

use crate::places::reason_at;
use preempt::tasks::task_place;
use rules::{Reason, Refusal};
use table::accepted::Table;
use table::judge_table;

// The place of the task with this id, or refusal 15 where it is not listed.
fn listed_place(table: &Table, id: u32) -> Result<usize, Refusal>
    ensures told { judged result ≡ unlisted_refusal (not (listed (tasks (records table.now.image.now)) id)) }
    ensures place { IfOk result (λ i. (i ≡ place_of (tasks (records table.now.image.now)) id) × (i < table.now.tasks)) }
{
    task_place(table, id).ok_or(Refusal::Unlisted)
}

// The reason, for two ids of a table image; or the refusal, 15 where one of them is not listed.
pub fn find_reason(image: &[u8], low: u32, high: u32) -> Result<Reason, Refusal>
    ensures { reason_told result ≡ reason_answer image.now low high }
{
    let mut before = [0u64; 64];
    let table = judge_table(image, &mut before)?;
    let i = listed_place(&table, low)?;
    let j = listed_place(&table, high)?;
    Ok(reason_at(&table, &before, i, j))
}
