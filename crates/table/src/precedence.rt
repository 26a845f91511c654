// Which tasks come before which: the precedence pairs, and the paths that they make.
ghost use Rattle.std.specs.Prelude.{◌≡◌, ◌≤◌, replicate};
ghost use Rattle.rules.specs.Blocks.{records};
ghost use Rattle.rules.specs.Records.{tasks};
ghost use Rattle.rules.specs.Preempt.{cell};
ghost use Rattle.image.specs.First.{first};
ghost use Rattle.table.specs.Numbers.{Directory};
ghost use Rattle.table.specs.Precedence.{SoundRecords, before_map};

use crate::pairs::mark_pairs;
use rules::Sort;
use sets::bits::is_set;
use sets::closing::close_rows;

// Sets cell j of row i, in rows that are all 0, where the task at place i comes before the one at place j. The tasks have these ids.
pub fn mark_before(rows: &mut [u64; 64], image: &[u8], ids: &[u32], known: usize)
    requires sound_records { SoundRecords image.now }
    requires tasks_listed { Directory (tasks (records image.now)) ids.now known }
    requires blank { rows.old ≡ replicate 64 0 }
    ensures { rows.new ≡ before_map (records image.now) }
{
    mark_pairs(rows, image, ids, known, u32::from(Sort::Precedence));
    close_rows(rows, known);
}

// The first place whose row has the place itself, if any below count has.
pub fn first_circle(rows: &[u64; 64], count: usize) -> Option<usize>
    requires few { count ≤ 64 }
    ensures { result ≡ first (λ i. cell rows.now i i) count }
{
    (0..count).find(|&i| is_set(rows[i], i))
}
