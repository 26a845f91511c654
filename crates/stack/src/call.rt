// The bound call: the chain and the four bounds from a table image and a lent map.
ghost use Rattle.std.specs.Prelude.{◌≡◌, map as List·map, ℕ, ◌≤◌, ◌<◌, length, get_or, Ok};
ghost use Rattle.rules.specs.Blocks.{records};
ghost use Rattle.rules.specs.Told.{bounds_told};
ghost use Rattle.rules.specs.Calls.{over, BoundCall};
ghost use Rattle.stack.specs.Setting.{Ready, RowsRise};
ghost use Rattle.stack.specs.Figures.{PreparedOver, BoundsOver};

use crate::levels::level_bound;
use crate::order::by_falling_priority;
use crate::ordered::Ordered;
use crate::own::transaction_bound;
use crate::path::path_bound;
use crate::related::related_rows;
use crate::rising::Rising;
use crate::search::heaviest_chain;
use preempt::columns::Columns;
use preempt::tasks::{Tasks, read_tasks};
use rules::{BoundsFound, Refusal};
use table::table_verdict;

// What the bounds are worked out over: the rows of the relation, and the places by falling priority.
#[derive(Drop)]
pub struct Prepared {
    pub rows: [u64; 64],
    pub order: [u8; 64],
}

// The rows of the relation over a lent map and the order of the places, from what was read of the tasks.
pub fn prepare(columns: &Columns, count: usize, map: &[u64]) -> Prepared
    requires in_bounds { (count ≤ 64) × (64 ≤ length map.now) }
    ensures { PreparedOver count columns.now map.now result }
{
    Prepared {
        rows: related_rows(&columns.thresholds, &columns.priorities, map, count),
        order: by_falling_priority(&columns.priorities, count),
    }
}

impl Prepared {
    // The tasks with the rows and the order, for path sums.
    pub fn ordered(&self, tasks: &Tasks) -> Ordered
        requires ready { Ready tasks.now.table.tasks self.now.rows tasks.now.columns.sizes self.now.order }
        ensures count { result.count ≡ tasks.now.table.tasks }
        ensures rows { result.rows ≡ self.now.rows }
        ensures sizes { result.sizes ≡ tasks.now.columns.sizes }
    {
        Ordered {
            count: tasks.table.tasks,
            rows: self.rows,
            sizes: tasks.columns.sizes,
            order: self.order,
        }
    }
}

// Writes the ids of the chain, by its places among the ids of all tasks, over the start of the room.
pub fn write_ids(chain: &[u8], all: &[u32; 64], ids: &mut [u16])
    requires in_bounds { (length chain.now ≤ 64) × (64 ≤ length ids.old) }
    requires places_below { (k : ℕ) → k < length chain.now → get_or chain.now k 0 < 64 }
    requires ids_small { (i : ℕ) → get_or all.now i 0 < 65536 }
    ensures { ids.new ≡ over (List·map (λ i. get_or all.now i 0) chain.now) ids.old }
{
    for k in 0..chain.len() {
        ids[k] = all[usize::from(chain[k])] as u16;
    }
}

// The answer for an accepted table, from what was read of its tasks, the rows of the relation and the order of the places. The
// chain's ids go to the lent room.
pub fn bounds_over(tasks: &Tasks, prepared: &Prepared, ids: &mut [u16]) -> BoundsFound
    requires ready { Ready tasks.now.table.tasks prepared.now.rows tasks.now.columns.sizes prepared.now.order }
    requires rises { RowsRise tasks.now.table.tasks prepared.now.rows tasks.now.columns.priorities }
    requires in_bounds { 64 ≤ length ids.old }
    ensures { BoundsOver (records tasks.now.table.image.now) prepared.now.rows ids.old (bounds_told (Ok result)) ids.new }
{
    let ordered = prepared.ordered(tasks);
    let rising = Rising {
        count: tasks.table.tasks,
        rows: prepared.rows,
        sizes: tasks.columns.sizes,
        priorities: tasks.columns.priorities,
    };
    let best = heaviest_chain(&rising);
    write_ids(best.chain.as_slice(), &tasks.columns.ids, ids);
    BoundsFound {
        tasks: tasks.table.tasks as u32,
        chain: best.weight,
        path: path_bound(&ordered),
        transactions: transaction_bound(&tasks.table, &tasks.columns.transactions, &ordered),
        levels: level_bound(&rising),
        length: best.chain.length as u32,
    }
}

// The chain bound with its chain, and the path, transactions and levels bounds, of a table image over a lent map of any
// contents. The chain's ids go to the lent room; a refusal writes nothing.
pub fn find_bounds(image: &[u8], map: &[u64], ids: &mut [u16]) -> Result<BoundsFound, Refusal>
    ensures { BoundCall image.now map.now ids.old (bounds_told result) ids.new }
{
    let table = table_verdict(image)?;
    if map.len() < 64 || ids.len() < 64 {
        return Err(Refusal::Short);
    }
    let tasks = read_tasks(&table);
    let prepared = prepare(&tasks.columns, tasks.table.tasks, map);
    Ok(bounds_over(&tasks, &prepared, ids))
}
