// Rows closed over paths: what one step leads to becomes what a path of steps leads to.
ghost use Rattle.std.specs.Prelude.{◌≡◌, ◌≤◌, ◌<◌};
ghost use Rattle.rules.specs.Preempt.{cell, map_from};
ghost use Rattle.rules.specs.Reach.{reaches};
ghost use Rattle.sets.specs.Closing.{IsMap, through_one};

use crate::bits::is_set;
use crate::places::union;

// Adds the paths that lead over place k: a row that has k gets the places of row k.
fn lead_over(rows: &mut [u64; 64], count: usize, k: usize)
    requires count_bound { (count ≤ 64) × (k < count) }
    requires map { IsMap count rows.old }
    ensures { rows.new ≡ map_from count (through_one (cell rows.old) k) }
{
    let further = rows[k];
    if further == 0 {
        return;
    }
    for i in 0..count {
        let row = rows[i];
        rows[i] = if is_set(row, k) {
            union(row, further)
        } else {
            row
        };
    }
}

// Adds what paths of two or more steps lead to.
pub fn close_rows(rows: &mut [u64; 64], count: usize)
    requires count_bound { count ≤ 64 }
    requires map { IsMap count rows.old }
    ensures { rows.new ≡ map_from count (reaches (cell rows.old) (λ k. k) count) }
{
    for k in 0..count {
        lead_over(rows, count, k);
    }
}
