// The transactions bound: for each transaction the path bound of its own tasks, added up.
ghost use Rattle.std.specs.Prelude.{length};
ghost use Rattle.rules.specs.Blocks.{records};
ghost use Rattle.rules.specs.Records.{transactions as Records·transactions};
ghost use Rattle.stack.specs.Figures.{OwnPaths};

use crate::ordered::Ordered;
use crate::path::{largest_at, path_sums};
use image::bytes::two_bytes;
use sets::places::members;
use table::accepted::Table;

// For each transaction of an accepted table the path bound of the tasks with its number, added up. One array of best sums is
// handed on from each transaction to the next, since each fills in its own places before it reads them.
pub fn transaction_bound(table: &Table, numbers: &[u32; 64], ordered: &Ordered) -> u32
    ensures { let listed = Records·transactions (records table.now.image.now) in
        OwnPaths ordered.now.count ordered.now.rows ordered.now.sizes numbers.now listed (length listed) result }
{
    let mut sums = [0u32; 64];
    let mut total: u32 = 0;
    for t in 0..table.transactions {
        let number = two_bytes(table.transaction_record(t), 2);
        let own = members(numbers, ordered.count, number);
        let more = path_sums(ordered, own, sums);
        sums = more;
        total += largest_at(&sums, own);
    }
    total
}
