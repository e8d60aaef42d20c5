// Who calls from PSTN 2346, on one line: the row of that number, and what the screen shows there.
use super::rows::row;
use callers::handheld::line_of;
use callers::lookup::NoCaller;
use printing::output::text;
use std::io;
use std::io::Write;

pub(crate) fn call<W: Write>(out: &mut W, store: &[u8]) -> io::Result<()> {
    text(out, b"  call from 2346       ")?;
    let answer = line_of(0, &[2, 3, 4, 6], store);
    match answer {
        Ok(Some(position)) => row(out, store, 1, (position % 65536) as u32)?,
        Ok(None) => text(out, b"no row")?,
        Err(NoCaller::NotAStore) => text(out, b"no store")?,
        Err(NoCaller::NotANumber) => text(out, b"no number")?,
    }
    text(out, b"\n")
}
