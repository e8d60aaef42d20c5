// Instructions to this program: a byte that says which, and what it needs.
use super::rows::{compare, show};
use plain::desk::start as start_area;
use printing::output::text;
use station::handheld::start;
use std::io;
use std::io::Write;

// A place in two bytes, high byte first.
fn place(high: u8, low: u8) -> usize {
    u16::from_be_bytes([high, low]) as usize
}

// Changes the byte at a place by the bits of a value; the same again puts it back.
fn damage(area: &mut [u8], place: usize, value: u8) {
    if place < area.len() {
        area[place] ^= value;
    }
}

// Damages the area by the place and the value that stand behind a first byte.
fn damage_by(bytes: &[u8], area: &mut [u8]) {
    if let [_, high, low, value] = bytes {
        damage(area, place(*high, *low), *value);
    }
}

// Starts both engines afresh.
fn start_both<W: Write>(out: &mut W, store: &mut [u8], area: &mut [u8]) -> io::Result<()> {
    text(out, b"start\n")?;
    start(store);
    start_area(area);
    Ok(())
}

// 1 shows the plain engine's rows, 2 damages its area, 3 starts both engines afresh, 4 compares all rows of both.
pub(crate) fn obey<W: Write>(
    out: &mut W,
    bytes: &[u8],
    store: &mut [u8],
    area: &mut [u8],
) -> io::Result<()> {
    match bytes {
        [] => {}
        [1, ..] => show(out, area)?,
        [2, ..] => damage_by(bytes, area),
        [3, ..] => start_both(out, store, area)?,
        _ => compare(out, store, area)?,
    }
    Ok(())
}
