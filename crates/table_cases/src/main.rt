// Runs cases that were worked out by hand, of the tables, their counts and their room: a line each, with the number answered and what was left behind.
#![tactic(auto)]

use std::io;
use std::io::Write;
use tables::limits::HANDHELD_SIZE;

mod channel_cases;
mod contact_cases;
mod count_cases;
mod eight_bit_cases;
mod line_cases;
mod line_slot_cases;
mod slot_cases;
mod text_cases;
mod text_room_cases;
mod type_cases;

fn main(rt: HostRuntime) -> io::Result<()> {
    let mut out = rt.stdout();
    let mut store = [0u8; HANDHELD_SIZE];
    line_cases::run(&mut out, &mut store)?;
    type_cases::run(&mut out, &mut store)?;
    channel_cases::run(&mut out, &mut store)?;
    count_cases::run(&mut out, &mut store)?;
    text_cases::run(&mut out, &mut store)?;
    slot_cases::run(&mut out, &mut store)?;
    contact_cases::run(&mut out, &mut store)?;
    line_slot_cases::run(&mut out, &mut store)?;
    eight_bit_cases::run(&mut out, &mut store)?;
    text_room_cases::run(&mut out, &mut store)?;
    out.flush()
}
