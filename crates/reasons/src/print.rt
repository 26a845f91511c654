// The lines that the program prints.
ghost use Rattle.std.specs.Prelude.{◌≡◌, true, ℕ, ◌<◌, length, get_or};
ghost use Rattle.rules.specs.Blocks.{records};
ghost use Rattle.rules.specs.Records.{tasks, listed};
ghost use Rattle.table.specs.Precedence.{before_map};

use console::print::refusal;
use preempt::tasks::task_place;
use reason::places::reason_at;
use reason::told::word;
use rules::Verdict;
use std::io;
use table::accepted::Table;
use table::judge_table;

// The place of the task with this id, which is listed.
fn place_listed(table: &Table, id: u16) -> usize
    requires { listed (tasks (records table.now.image.now)) id ≡ true }
    ensures { result < table.now.tasks }
{
    task_place(table, u32::from(id)).unwrap()
}

// A line for each two neighbours among ids of tasks of a table: the two ids, and the word for why the first may be preempted by the
// second. The rows of before say which of its tasks come before which.
fn pair_lines(out: &impl Print, table: &Table, before: &[u64; 64], ids: &[u16]) -> io::Result<()>
    requires before_known { before.now ≡ before_map (records table.now.image.now) }
    requires all_listed { (k : ℕ) → k < length ids.now → listed (tasks (records table.now.image.now)) (get_or ids.now k 0) ≡ true }
{
    if ids.is_empty() {
        return Ok(());
    }
    let mut low = ids[0];
    let mut place = place_listed(table, low);
    for high in &ids[1..] {
        let next = place_listed(table, *high);
        println!(out;
            "{low} {high} {}",
            word(reason_at(table, before, place, next))
        )?;
        low = *high;
        place = next;
    }
    Ok(())
}

// The same of a table image, with those rows worked out once for all lines, or its refusal.
pub fn neighbours(out: &impl Print, image: &[u8], ids: &[u16]) -> io::Result<()>
    requires { (k : ℕ) → k < length ids.now → listed (tasks (records image.now)) (get_or ids.now k 0) ≡ true }
{
    let mut before = [0u64; 64];
    match judge_table(image, &mut before) {
        Ok(table) => pair_lines(out, &table, &before, ids),
        Err(refused) => refusal(out, Verdict::from(refused)),
    }
}
