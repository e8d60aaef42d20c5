// Runs cases that were worked out by hand, of what an office asks a set and sends it: reports, each read back, joined requests, and updates.
#![tactic(auto)]

use std::io;
use std::io::Write;
use tables::limits::HANDHELD_SIZE;

mod join_cases;
mod report_cases;
mod update_cases;

fn main(rt: HostRuntime) -> io::Result<()> {
    let mut out = rt.stdout();
    let mut store = [0u8; HANDHELD_SIZE];
    report_cases::run(&mut out, &mut store)?;
    join_cases::run(&mut out, &mut store)?;
    update_cases::run(&mut out, &mut store)?;
    out.flush()
}
