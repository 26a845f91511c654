// The tasks of a table, read once.
ghost use Rattle.std.specs.Prelude.{◌≡◌, [], ◌<◌, get_or, unwrap_or, IfSome};
ghost use Rattle.rules.specs.Blocks.{records};
ghost use Rattle.rules.specs.Records.{jitter_of, threshold_of, task_of, tasks, place_of, period_in, period_at};
ghost use Rattle.preempt.specs.Tasks.{TasksRead};

use crate::columns::Columns;
use image::bytes::{byte_at, four_bytes, two_bytes};
use rules::Task;
use table::accepted::Table;
use table::place::place_from;

// An accepted table, and what is read of its tasks.
#[derive(Drop)]
pub struct Tasks<'a> {
    pub table: Table<'a>,
    pub columns: Columns,
    ghost read: { TasksRead (records table.image.now) table.tasks columns },
}

// The jitter of a task that is not measured.
const UNMEASURED: u32 = u32::MAX;

// A jitter, where one that is missing is read as the period of the task's transaction.
fn jitter_of(period: u32, jitter: u32) -> u32
    ensures { result ≡ jitter_of period jitter }
{
    if jitter == UNMEASURED {
        return period;
    }
    jitter
}

// A threshold, where 0 is read as the task's priority.
fn threshold_of(priority: u32, threshold: u32) -> u32
    ensures { result ≡ threshold_of priority threshold }
{
    if threshold == 0 {
        return priority;
    }
    threshold
}

// What a task record says, where its transaction has this period.
fn task_of(period: u32, fields: &[u8]) -> Task
    ensures { result ≡ task_of period fields.now }
{
    let priority = two_bytes(fields, 6);
    Task {
        id: two_bytes(fields, 2),
        transaction: two_bytes(fields, 4),
        priority,
        offset: four_bytes(fields, 8),
        jitter: jitter_of(period, four_bytes(fields, 12)),
        response: four_bytes(fields, 16),
        size: two_bytes(fields, 20),
        threshold: threshold_of(priority, byte_at(fields, 22)),
    }
}

// The task at a place of an accepted table, where its transaction has this period.
pub fn task_at(table: &Table, place: usize, period: u32) -> Task
    requires { place < table.now.tasks }
    ensures { result ≡ task_of period (get_or (tasks (records table.now.image.now)) place []) }
{
    task_of(period, table.task_record(place))
}

// The place of the task with this id, where one is listed.
pub fn task_place(table: &Table, id: u32) -> Option<usize>
    ensures place { unwrap_or result table.now.tasks ≡ place_of (tasks (records table.now.image.now)) id }
    ensures in_bounds { IfSome result (λ i. i < table.now.tasks) }
{
    place_from(table.image, table.transactions, table.tasks, id)
}

// The period of the transaction with this number, or 0 where it is not listed, as it is defined.
fn period_in(table: &Table, number: u32) -> u32
    ensures { result ≡ period_in (records table.now.image.now) number }
{
    match place_from(table.image, 0, table.transactions, number) {
        Some(place) => four_bytes(table.transaction_record(place), 8),
        None => 0,
    }
}

// The period of the transaction of the task at a place.
pub fn period_at(table: &Table, place: usize) -> u32
    requires { place < table.now.tasks }
    ensures { result ≡ period_at (records table.now.image.now) place }
{
    period_in(table, two_bytes(table.task_record(place), 4))
}

// The tasks of an accepted table.
pub fn read_tasks<'a>(table: &Table<'a>) -> Tasks<'a>
    ensures of_table { result.table ≡ table.now }
    ensures read { TasksRead (records table.now.image.now) table.now.tasks result.columns }
{
    let mut columns = Columns::none();
    for i in 0..table.tasks {
        let period = period_at(table, i);
        columns.put(i, task_at(table, i, period), period);
    }
    Tasks {
        table: *table,
        columns,
    }
}
