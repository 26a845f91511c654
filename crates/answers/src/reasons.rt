// The reason call, `W`: the reasons of all pairs of places, and of the pairs of ids that are asked.
ghost use Rattle.std.specs.Prelude.{◌≡◌, ◌≤◌, ◌<◌, length};
ghost use Rattle.rules.specs.Blocks.{records};
ghost use Rattle.table.specs.Precedence.{before_map};

use crate::case::Case;
use crate::space::{IMAGE_BYTES, ROWS, filled, read_bytes, read_numbers};
use crate::stop::Stop;
use crate::{digest, print};
use reason::call::find_reason;
use reason::places::reason_at;
use rules::Refusal;
use std::io;
use std::io::Read;
use table::accepted::Table;
use table::judge_table;

// The pairs of 64 places.
const PAIRS: usize = 4096;

// What one half of a question is counted in.
const HALF: u64 = 4_294_967_296;

// Sets the reasons of the task at place i with each task: the number of that of places i and j at 64 * i + j. The rows of before say
// which tasks come before which.
fn set_row(table: &Table, before: &[u64; 64], i: usize, told: &mut [u8])
    requires before_known { before.now ≡ before_map (records table.now.image.now) }
    requires in_bounds { i < table.now.tasks }
    requires few { table.now.tasks ≤ 64 }
    requires room { 4096 ≤ length told.old }
{
    for j in 0..table.tasks {
        told[64 * i + j] = u32::from(reason_at(table, before, i, j)) as u8;
    }
}

// The refusal of a table; where it is accepted, the reasons of all its pairs of places are set.
fn set_all(image: &[u8], told: &mut [u8]) -> Result<(), Refusal>
    requires { 4096 ≤ length told.old }
{
    let mut before = [0u64; 64];
    let table = judge_table(image, &mut before)?;
    for i in 0..table.tasks {
        set_row(&table, &before, i, told);
    }
    Ok(())
}

// The verdict, the digest of all pairs' reasons, and how many pairs have each.
fn answer_all(out: &impl Print, image: &[u8]) -> io::Result<()> {
    let mut told = filled::<u8, PAIRS>(0);
    let check = set_all(image, &mut told);
    print!(out; "W")?;
    print::verdict(out, check)?;
    print!(out; " {}", digest::of_bytes(&told))?;
    for number in 1..=6 {
        print!(out; " {}", told.iter().filter(|one| **one == number).count())?;
    }
    Ok(())
}

// A bar and the answer to each question, which is a row: the id of the low task in its low half, of the high one above it.
fn answer_questions(out: &impl Print, image: &[u8], questions: &[u64]) -> io::Result<()> {
    for question in questions {
        let low = (*question % HALF) as u32;
        let high = (*question / HALF) as u32;
        print!(out; " |")?;
        print::reasoned(out, find_reason(image, low, high))?;
    }
    Ok(())
}

// Answers one case.
pub fn answer(input: &mut impl Read, out: &impl Print, case: &Case) -> Result<(), Stop> {
    let mut image_space = filled::<u8, IMAGE_BYTES>(0);
    let mut question_space = filled::<u64, ROWS>(0);
    let image = read_bytes(input, &mut image_space, case.image_bytes)?;
    let questions = read_numbers(input, &mut question_space, case.read_rows)?;
    answer_all(out, image)?;
    answer_questions(out, image, questions)?;
    println!(out;)?;
    Ok(())
}
