// Two calls on a table image and a lent map: for each task how much of a reserve is left to it, and the heaviest chain through
// one task.
ghost use Rattle.std.specs.Prelude.{◌≡◌, ◌≤◌, length, get_or};
ghost use Rattle.std.proofs.Math.IntN.{sub_ℕ};
ghost use Rattle.rules.specs.Numbers.{up_to};
ghost use Rattle.rules.specs.Blocks.{records};
ghost use Rattle.rules.specs.Preempt.{cell};
ghost use Rattle.rules.specs.Chains.{related};
ghost use Rattle.rules.specs.Told.{judged, chain_told};
ghost use Rattle.rules.specs.Calls.{over, RoomLeftCall, ThroughCall};

use crate::near::heaviest_through;
use crate::weights::weights_through;
use preempt::tasks::{Tasks, read_tasks, task_place};
use rules::{ChainFound, Refusal};
use stack::call::write_ids;
use stack::related::related_rows;
use stack::rising::Rising;
use table::table_verdict;

// What a weight leaves of the reserve.
fn left_of(reserve: u32, weight: u32) -> i64
    ensures { result ≡ sub_ℕ reserve weight }
{
    i64::from(reserve) - i64::from(weight)
}

// Writes what each weight leaves of the reserve over the start of the room.
fn write_figures(weights: &[u32; 64], count: usize, reserve: u32, room: &mut [i64])
    requires in_bounds { (count ≤ 64) × (64 ≤ length room.old) }
    ensures { room.new ≡ over (up_to (λ i. sub_ℕ reserve (get_or weights.now i 0)) count) room.old }
{
    for place in 0..count {
        room[place] = left_of(reserve, weights[place]);
    }
}

// The tasks of a table with the rows of their relation over a lent map.
fn related_tasks(tasks: &Tasks, map: &[u64]) -> Rising
    requires in_bounds { 64 ≤ length map.now }
    ensures count { result.count ≡ tasks.now.table.tasks }
    ensures related { cell result.rows ≡ related (records tasks.now.table.image.now) map.now }
    ensures sizes { result.sizes ≡ tasks.now.columns.sizes }
{
    Rising {
        count: tasks.table.tasks,
        rows: related_rows(
            &tasks.columns.thresholds,
            &tasks.columns.priorities,
            map,
            tasks.table.tasks,
        ),
        sizes: tasks.columns.sizes,
        priorities: tasks.columns.priorities,
    }
}

// For each task of a table image, by place, the reserve less what the heaviest chain that contains it weighs, over a lent map
// of any contents. The other places of the room keep their values; a refusal writes nothing.
pub fn room_left(image: &[u8], map: &[u64], reserve: u32, room: &mut [i64]) -> Result<(), Refusal>
    ensures { RoomLeftCall image.now map.now reserve room.old (judged result) room.new }
{
    let table = table_verdict(image)?;
    if map.len() < 64 || room.len() < 64 {
        return Err(Refusal::Short);
    }
    let rising = related_tasks(&read_tasks(&table), map);
    let weights = weights_through(&rising);
    write_figures(&weights, rising.count, reserve, room);
    Ok(())
}

// The heaviest chain that contains the task with this id, of a table image over a lent map of any contents, with its weight
// and length. The chain's ids go to the lent room; a refusal writes nothing.
pub fn chain_through(
    image: &[u8],
    map: &[u64],
    id: u32,
    ids: &mut [u16],
) -> Result<ChainFound, Refusal>
    ensures { ThroughCall image.now map.now id ids.old (chain_told result) ids.new }
{
    let table = table_verdict(image)?;
    let Some(place) = task_place(&table, id) else {
        return Err(Refusal::Unlisted);
    };
    if map.len() < 64 || ids.len() < 64 {
        return Err(Refusal::Short);
    }
    let tasks = read_tasks(&table);
    let best = heaviest_through(&related_tasks(&tasks, map), place);
    write_ids(best.chain.as_slice(), &tasks.columns.ids, ids);
    Ok(ChainFound {
        weight: best.weight,
        length: best.chain.length as u32,
    })
}
