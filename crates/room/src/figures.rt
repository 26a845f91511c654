// What the tasks of a table have left of a reserve.
ghost use Rattle.std.specs.Prelude.{◌≡◌};
ghost use Rattle.rules.specs.Calls.{map_after, RoomLeftCall};
ghost use Rattle.rules.specs.Told.{judged};

use crate::print::task_lines;
use console::print::refusal;
use preempt::map::fill_map;
use preempt::tasks::read_tasks;
use rules::{Refusal, Verdict};
use std::io;
use table::accepted::Table;
use through::call::room_left;

// Works out what each task has left over the table's own map, which is left in the rows.
fn work_out(image: &[u8], reserve: u32, rows: &mut [u64], room: &mut [i64]) -> Result<(), Refusal>
    ensures rows_after { rows.new ≡ map_after image.now rows.old }
    ensures room_left_call { RoomLeftCall image.now rows.new reserve room.old (judged result) room.new }
{
    let _ = fill_map(image, rows);
    room_left(image, rows, reserve, room)
}

// Prints a line for each task of a table image, or the refusal.
pub fn report(out: &impl Print, image: &[u8], reserve: u32) -> io::Result<()> {
    let mut rows = [0u64; 64];
    let mut room = [0i64; 64];
    match work_out(image, reserve, &mut rows, &mut room) {
        Ok(()) => task_lines(out, &read_tasks(&Table::of(image)), &room),
        Err(refused) => refusal(out, Verdict::from(refused)),
    }
}
