// Touched tasks, as a set of places: those that a patch record concerns, and those along the paths of a precedence pair.
ghost use Rattle.std.specs.Prelude.{◌≡◌, ◌≤◌};
ghost use Rattle.rules.specs.Numbers.{count_to};
ghost use Rattle.rules.specs.Blocks.{records};
ghost use Rattle.rules.specs.Preempt.{bit_at};
ghost use Rattle.patch.specs.Touched.{Marks, has_id, concerns_at, beside_in, along_in, touched_in, touched_at};

use crate::related::Related;
use image::bytes::{byte_at, two_bytes};
use image::records::{record_at, record_count};
use preempt::tasks::Tasks;
use rules::{Kind, Sort};
use sets::bits::{is_set, power};
use sets::places::{members, union};
use table::accepted::Patch;
use table::place::place_of;

// The task with an id, or none.
#[tactic(auto, using(crate::proofs::Touching::finding))]
fn task_with(tasks: &Tasks, id: u32) -> u64
    ensures { Marks tasks.now (has_id tasks.now id) result }
{
    match place_of(&tasks.columns.ids, tasks.table.tasks, id) {
        Some(place) => power(place),
        None => 0,
    }
}

// The tasks that a patch record concerns.
fn concerned(tasks: &Tasks, fields: &[u8]) -> u64
    ensures { Marks tasks.now (concerns_at tasks.now fields.now) result }
{
    let number = two_bytes(fields, 2);
    match Kind::try_from(byte_at(fields, 0)) {
        Ok(Kind::Transaction) => members(&tasks.columns.transactions, tasks.table.tasks, number),
        Ok(Kind::Task) => task_with(tasks, number),
        Ok(Kind::Pair) => {
            let second = two_bytes(fields, 4);
            union(task_with(tasks, number), task_with(tasks, second))
        }
        Err(_) => 0,
    }
}

// The tasks that come before or after the one with an id, where a task has it.
#[tactic(auto, using(crate::proofs::Touching::finding))]
fn tasks_beside(related: &Related, id: u32) -> u64
    ensures { Marks related.now.tasks (beside_in related.now id) result }
{
    let tasks = &related.tasks;
    match place_of(&tasks.columns.ids, tasks.table.tasks, id) {
        Some(place) => related.beside[place],
        None => 0,
    }
}

// The tasks along the paths of a patch record: those before or after one of its two, where it is a precedence pair.
fn tasks_along(related: &Related, fields: &[u8]) -> u64
    ensures { Marks related.now.tasks (along_in related.now fields.now) result }
{
    if byte_at(fields, 0) != u32::from(Kind::Pair) {
        return 0;
    }
    if byte_at(fields, 1) != u32::from(Sort::Precedence) {
        return 0;
    }
    let first = tasks_beside(related, two_bytes(fields, 2));
    let second = tasks_beside(related, two_bytes(fields, 4));
    union(first, second)
}

// The tasks that a patch record touches.
fn touched_by(related: &Related, fields: &[u8]) -> u64
    ensures { Marks related.now.tasks (touched_in related.now fields.now) result }
{
    union(
        concerned(&related.tasks, fields),
        tasks_along(related, fields),
    )
}

// The tasks of the outcome that some record of the patch touches. Along the paths of the base no other task is touched.
pub fn touched_tasks(patch: &Patch, related: &Related) -> u64
    ensures { Marks related.now.tasks (touched_at (records patch.now.image.now) related.now) result }
{
    let mut set: u64 = 0;
    for place in 0..record_count(patch.image) {
        let fields = record_at(patch.image, place);
        set = union(set, touched_by(related, fields));
    }
    set
}

// How many of the first count places are in a set.
pub fn count_places(set: u64, count: usize) -> u32
    requires { count ≤ 64 }
    ensures { result ≡ count_to (bit_at set) count }
{
    let mut found: u32 = 0;
    for i in 0..count {
        found += u32::from(is_set(set, i));
    }
    found
}
