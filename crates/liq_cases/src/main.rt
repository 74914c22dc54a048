//! Runs cases: whole runs of liq, written down in readable files. `liq_cases FILE ..` prints a line
//! for each file, with how many cases it has, and a line for each difference between what a case
//! says and what comes. The form of a case is told in docs/CASES.md. The last line is that of a few
//! runs that no file asks for.
#![tactic(auto)]

mod beside;
mod cases;
mod devices;
mod disks;
mod endings;
mod facts;
mod forged;
mod performing;
mod runs;
mod sessions;
mod sink;
mod stage;
mod stops;
mod sweeps;
mod waiting;

use beside::tell_beside;
use cases::tell_file;
use std::{env, fs, io};

fn main(rt: HostRuntime) -> io::Result<()> {
    for name in env::args(&rt)?.skip(1) {
        let text = fs::read_to_string(&rt, name.as_str())?;
        let told = tell_file(&rt, rt.alloc(), name, text.as_str())?;
        print!(rt; "{told}")?;
    }
    let told = tell_beside(&rt, rt.alloc())?;
    print!(rt; "{told}")
}
