// The program `bounds`: reads one table image from standard input and prints the number of tasks, the chain bound with
// its chain, and the path, transactions and levels bounds, or the refusal alone.

#![tactic(auto)]

mod print;

use std::io;

fn main(rt: HostRuntime) -> io::Result<()> {
    let mut space = console::input::space();
    let mut rows = [0u64; 64];
    let mut ids = [0u16; 64];
    let worked = console::worked::work_out(&mut rt.stdin(), &rt, &mut space, &mut rows, &mut ids)?;
    if let Ok(found) = worked.bounds {
        print::found(&rt, &found, &ids[..found.length as usize])?;
    }
    Ok(())
}
