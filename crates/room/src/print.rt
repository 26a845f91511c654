// The lines that the program prints.
ghost use Rattle.std.specs.Prelude.{◌≡◌, ◌≤◌, nat_abs, length};

use preempt::tasks::Tasks;
use std::io;

// What the reserve has to be.
pub fn usage(err: &impl Eprint) -> io::Result<()> {
    eprintln!(err; "room: the reserve is one number from 0 to 4294967295")
}

// How far a figure is from 0: the number that is printed behind its sign.
fn distance_from_zero(figure: i64) -> u64
    ensures { result ≡ nat_abs figure }
{
    figure.unsigned_abs()
}

// A line with an id and a signed figure.
fn line(out: &impl Print, id: u32, figure: i64) -> io::Result<()> {
    let sign = if figure < 0 { "-" } else { "" };
    println!(out; "{id} {sign}{}", distance_from_zero(figure))
}

// A line for each task, with the figure of its place.
pub fn task_lines(out: &impl Print, tasks: &Tasks, figures: &[i64]) -> io::Result<()>
    requires { 64 ≤ length figures.now }
{
    for place in 0..tasks.table.tasks {
        line(out, tasks.columns.ids[place], figures[place])?;
    }
    Ok(())
}
