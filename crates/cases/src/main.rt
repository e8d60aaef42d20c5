// Runs cases that were worked out by hand, of numbers, buffers, messages and settings: a line each, with the number answered and what was left behind.
#![tactic(auto)]

use std::io;
use std::io::Write;
use tables::limits::HANDHELD_SIZE;

mod carrier_cases;
mod judge_cases;
mod last_cases;
mod plan_cases;
mod setting_cases;

fn main(rt: HostRuntime) -> io::Result<()> {
    let mut out = rt.stdout();
    plan_cases::run(&mut out)?;
    let mut store = [0u8; HANDHELD_SIZE];
    carrier_cases::run(&mut out, &mut store)?;
    setting_cases::run(&mut out, &mut store)?;
    last_cases::run(&mut out, &mut store)?;
    judge_cases::run(&mut out, &mut store)?;
    out.flush()
}
