// Who is calling: the order of the lines and the row of a number, after what changes the lines, and where the order is wrong.
use callers::handheld::line_of;
use callers::lookup::NoCaller;
use case_lines::showing::{decimal, text};
use case_lines::taking::requests;
use std::io;
use std::io::Write;

// Where the order of a hand-held's lines stands.
const ORDER: usize = 2222;

const SHOWN: usize = ORDER + 5;

// Bytes as numbers, with a space before each.
fn each<W: Write>(out: &mut W, bytes: &[u8]) -> io::Result<()> {
    for b in bytes {
        text(out, b" ")?;
        decimal(out, *b)?;
    }
    Ok(())
}

// The first five bytes of the order.
fn order<W: Write>(out: &mut W, store: &[u8]) -> io::Result<()> {
    if store.len() < SHOWN {
        return Ok(());
    }
    text(out, b"  order")?;
    each(out, &store[ORDER..SHOWN])?;
    text(out, b"\n")
}

// A case, and the order after it.
fn after<W: Write>(out: &mut W, case: &[u8], store: &mut [u8]) -> io::Result<()> {
    requests(out, case, store)?;
    order(out, store)
}

fn number<W: Write>(out: &mut W, idtype: u32, digits: &[u8]) -> io::Result<()> {
    text(out, b"  IDtype ")?;
    decimal(out, idtype)?;
    text(out, b", number")?;
    each(out, digits)
}

// The answer's line.
fn ask<W: Write>(out: &mut W, idtype: u32, digits: &[u8], store: &[u8]) -> io::Result<()> {
    number(out, idtype, digits)?;
    let answer = line_of(idtype, digits, store);
    match answer {
        Ok(Some(row)) => {
            text(out, b": 0, row ")?;
            decimal(out, (row % 65536) as u32)?;
        }
        Ok(None) => text(out, b": 0, no row")?,
        Err(NoCaller::NotAStore) => text(out, b": 11")?,
        Err(NoCaller::NotANumber) => text(out, b": 20")?,
    }
    text(out, b"\n")
}

// Each of the four lines, and numbers that begin like one.
fn four<W: Write>(out: &mut W, store: &[u8]) -> io::Result<()> {
    ask(out, 0, &[2, 3, 4, 5], store)?;
    ask(out, 1, &[2, 3, 4, 5], store)?;
    ask(out, 0, &[2, 3], store)?;
    ask(out, 0, &[3], store)?;
    ask(out, 0, &[2, 3, 4], store)?;
    ask(out, 0, &[2, 3, 4, 5, 6], store)?;
    ask(out, 1, &[3], store)?;
    ask(out, 2, &[2, 3, 4, 5], store)
}

// Numbers that are none, and the longest.
fn numbers<W: Write>(out: &mut W, store: &[u8]) -> io::Result<()> {
    ask(out, 0, b"", store)?;
    ask(out, 2, b"", store)?;
    ask(out, 0, &[1; 18], store)?;
    ask(out, 0, &[1; 19], store)?;
    ask(out, 0, &[2, 10], store)
}

const FOUR: [u8; 99] =
    *b"four lines: 03 CA 0009 C0 01 2345FF 0000 CA 0009 42 01 2345FF 0000 CA 000B 40 02 23FF 0000 3F 0000\n";

fn changes<W: Write>(out: &mut W, store: &mut [u8]) -> io::Result<()> {
    after(
        out,
        b"the first gets a text: 01 CA 000B 40 01 2345FF 0041 0000\n",
        store,
    )?;
    after(
        out,
        b"delete of PSTN 2345: 01 CA 0009 80 01 2345FF 0000\n",
        store,
    )?;
    four(out, store)?;
    after(
        out,
        b"a replace by PABX 23 and 18 digits: 01 CA 0014 C2 02 23FF 0000 111111111111111111FF 0000\n",
        store,
    )?;
    ask(out, 0, &[2, 3], store)?;
    ask(out, 1, &[2, 3], store)?;
    ask(out, 1, &[1; 18], store)?;
    after(out, b"no lines: 01 CA 0004 C0 00\n", store)?;
    ask(out, 1, &[2, 3], store)
}

// Two bytes of the order change places.
fn swap<W: Write>(out: &mut W, store: &mut [u8]) -> io::Result<()> {
    if store.len() < ORDER + 2 {
        return Ok(());
    }
    store.swap(ORDER, ORDER + 1);
    text(out, b"the first two of the order change places\n")
}

pub(crate) fn run<W: Write>(out: &mut W, store: &mut [u8]) -> io::Result<()> {
    text(out, b"a fresh store\n")?;
    after(out, b"a fresh store\n", store)?;
    ask(out, 0, &[2, 3], store)?;
    after(out, &FOUR, store)?;
    four(out, store)?;
    numbers(out, store)?;
    changes(out, store)?;
    after(out, &FOUR, store)?;
    swap(out, store)?;
    ask(out, 0, &[2, 3], store)?;
    ask(out, 0, b"", store)
}
