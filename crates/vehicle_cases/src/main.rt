// Runs cases that were worked out by hand, of the vehicle set: its room and its sizes, its exports taken by a hand-held, and its longest reports; a line each.
#![tactic(auto)]

use std::io;
use std::io::Write;
use tables::limits::{HANDHELD_SIZE, VEHICLE_SIZE};

mod asking_cases;
mod moving_cases;
mod room_cases;
mod size_cases;

fn main(rt: HostRuntime) -> io::Result<()> {
    let mut out = rt.stdout();
    let mut store = [0u8; VEHICLE_SIZE];
    let mut other = [0u8; HANDHELD_SIZE];
    room_cases::run(&mut out, &mut store)?;
    size_cases::run(&mut out, &mut store, &mut other)?;
    moving_cases::run(&mut out, &mut store, &mut other)?;
    asking_cases::run(&mut out, &mut store)?;
    out.flush()
}
