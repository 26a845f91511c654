// The program `room`: reads one table image from standard input and the reserve as its one argument, and prints for each task
// what the heaviest chain that contains it leaves of the reserve, or the refusal alone.

#![tactic(auto)]

mod argument;
mod figures;
mod print;

use std::io;

fn main(rt: HostRuntime) -> io::Result<()> {
    let Some(reserve) = argument::reserve(&rt) else {
        return print::usage(&rt);
    };
    let mut space = console::input::space();
    let length = console::input::read(&mut rt.stdin(), &mut space)?;
    figures::report(&rt, &space[..length], reserve)
}
