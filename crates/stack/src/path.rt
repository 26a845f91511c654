// The largest sum of sizes over paths: lists of places where only neighbours must satisfy the relation.
ghost use Rattle.rules.specs.Preempt.{cell};
ghost use Rattle.rules.specs.Chains.{weight, Path, Largest};
ghost use Rattle.sets.specs.Places.{Inside};
ghost use Rattle.ceiling.specs.Near.{size_of};
ghost use Rattle.stack.specs.Paths.{LargestAt, PathSums};

use crate::ordered::Ordered;
use sets::bits::is_set;
use sets::places::{Places, all_below, shared, without};

// The largest of the sums at the places of a set, or 0.
pub fn largest_at(sums: &[u32; 64], set: u64) -> u32
    ensures { LargestAt sums.now set result }
{
    let mut largest: u32 = 0;
    for place in Places::of(set) {
        let sum = sums[place];
        if largest < sum {
            largest = sum;
        }
    }
    largest
}

// The sums with those of the cover's places filled in: at each the largest sum over paths inside the cover that start there.
// The other places keep theirs. Places are taken by falling priority, so that the best sums of all that may preempt a place
// are known when its own is made.
pub fn path_sums(ordered: &Ordered, cover: u64, mut sums: [u32; 64]) -> [u32; 64]
    requires inside { Inside ordered.now.count cover }
    ensures { PathSums ordered.now.count ordered.now.rows ordered.now.sizes cover sums result }
{
    let mut rest = cover;
    for k in 0..ordered.count {
        if rest == 0 {
            break;
        }
        let place = usize::from(ordered.order[k]);
        if is_set(rest, place) {
            let higher = shared(ordered.rows[place], cover);
            sums[place] = ordered.sizes[place] + largest_at(&sums, higher);
            rest = without(rest, place);
        }
    }
    sums
}

// The largest sum over paths of all tasks.
pub fn path_bound(ordered: &Ordered) -> u32
    ensures { Largest (Path ordered.now.count (cell ordered.now.rows)) (weight (size_of ordered.now.sizes)) result }
{
    let all = all_below(ordered.count);
    let sums = path_sums(ordered, all, [0u32; 64]);
    largest_at(&sums, all)
}
