// Runs cases that were worked out by hand, of callers, of the screen's rows, and of what stands behind a row: a line each.
#![tactic(auto)]

use std::io;
use std::io::Write;
use tables::limits::HANDHELD_SIZE;

mod caller_cases;
mod screen_cases;
mod value_cases;

fn main(rt: HostRuntime) -> io::Result<()> {
    let mut out = rt.stdout();
    let mut store = [0u8; HANDHELD_SIZE];
    caller_cases::run(&mut out, &mut store)?;
    screen_cases::run(&mut out, &mut store)?;
    value_cases::run(&mut out, &mut store)?;
    out.flush()
}
