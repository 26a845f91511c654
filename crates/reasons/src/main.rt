// The program `reasons`: reads one table image from standard input and prints why the tasks of its chain nest, a line for
// each pair of neighbours, or the refusal alone.

#![tactic(auto)]

mod print;

use std::io;

fn main(rt: HostRuntime) -> io::Result<()> {
    let mut space = console::input::space();
    let mut rows = [0u64; 64];
    let mut ids = [0u16; 64];
    let worked = console::worked::work_out(&mut rt.stdin(), &rt, &mut space, &mut rows, &mut ids)?;
    if let Ok(found) = worked.bounds {
        print::neighbours(&rt, &space[..worked.length], &ids[..found.length as usize])?;
    }
    Ok(())
}
