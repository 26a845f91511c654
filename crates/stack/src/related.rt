// The rows of the relation between tasks, from their thresholds, their priorities and a lent map.
ghost use Rattle.std.specs.Prelude.{◌≡◌, ◌≤◌, length};
ghost use Rattle.rules.specs.Preempt.{row_from};
ghost use Rattle.stack.specs.Related.{is_higher, RelatedRows};

use sets::places::{places_where, shared};

// The places below count whose priority is above this threshold.
fn higher(priorities: &[u32; 64], count: usize, threshold: u32) -> u64
    requires few { count ≤ 64 }
    ensures { result ≡ row_from count (is_higher priorities.now threshold) }
{
    places_where(count, |place| threshold < priorities[place])
}

// The map with only those set cells that count: both places hold tasks, and the first has a threshold below the second's
// priority.
pub fn related_rows(
    thresholds: &[u32; 64],
    priorities: &[u32; 64],
    map: &[u64],
    count: usize,
) -> [u64; 64]
    requires in_bounds { (count ≤ 64) × (64 ≤ length map.now) }
    ensures { RelatedRows count thresholds.now priorities.now map.now result }
{
    let mut rows = [0u64; 64];
    for place in 0..count {
        let above = higher(priorities, count, thresholds[place]);
        rows[place] = shared(above, map[place]);
    }
    rows
}
