// How many lines and channels a store holds: after what changes it and what does not, and where a count is wrong.
use case_answers::count_lines::held;
use case_lines::sets::Set;
use case_lines::showing::{decimal, text};
use case_lines::taking::requests;
use std::io;
use std::io::Write;

// A case, and the counts after it.
fn after<W: Write>(out: &mut W, case: &[u8], store: &mut [u8]) -> io::Result<()> {
    requests(out, case, store)?;
    held(out, Set::Handheld, store)
}

fn put_1(store: &mut [u8], at: usize) {
    if let Some(b) = store.get_mut(at) {
        *b = 1;
    }
}

// A fresh store in which one byte of a count is 1.
fn wrong<W: Write>(out: &mut W, at: usize, store: &mut [u8]) -> io::Result<()> {
    requests(out, b"a fresh store\n", store)?;
    put_1(store, at);
    text(out, b"a fresh store with a 1 at ")?;
    decimal(out, (at % 65536) as u32)?;
    text(out, b"\n")?;
    held(out, Set::Handheld, store)
}

fn lines<W: Write>(out: &mut W, store: &mut [u8]) -> io::Result<()> {
    after(out, b"32 lines: 01 CA 0084 C0 20 {20 x % FF 0000}\n", store)?;
    after(out, b"the 33rd line: 01 CA 0008 40 01 32FF 0000\n", store)?;
    after(
        out,
        b"line 05 with another text: 01 CA 000A 40 01 05FF 0041 0000\n",
        store,
    )?;
    after(
        out,
        b"delete of line 03: 01 CA 0008 80 01 03FF 0000\n",
        store,
    )?;
    after(
        out,
        b"delete of line 03 again: 01 CA 0008 80 01 03FF 0000\n",
        store,
    )
}

fn channels<W: Write>(out: &mut W, store: &mut [u8]) -> io::Result<()> {
    after(
        out,
        b"64 channels, 33 times 241 and 31 times 640: 01 CE 0064 C040 {1F x 0F1 280} 0F1 0F1\n",
        store,
    )?;
    after(
        out,
        b"channel 300, when full: 01 CE 0006 4001 12C F\n",
        store,
    )?;
    after(
        out,
        b"delete of channel 241: 01 CE 0006 8001 0F1 F\n",
        store,
    )
}

fn emptied<W: Write>(out: &mut W, store: &mut [u8]) -> io::Result<()> {
    after(
        out,
        b"no lines, then channel 1: 02 CA 0004 C0 00 CE 0006 4001 001 F\n",
        store,
    )?;
    after(out, b"no lines: 01 CA 0004 C0 00\n", store)?;
    after(out, b"no channels: 01 CE 0004 C000\n", store)
}

// Counts of the two kinds of contacts.
fn wrong_contacts<W: Write>(out: &mut W, store: &mut [u8]) -> io::Result<()> {
    for at in [774, 775, 1096, 1097] {
        wrong(out, at, store)?;
    }
    Ok(())
}

// Counts of channels and lines.
fn wrong_lists<W: Write>(out: &mut W, store: &mut [u8]) -> io::Result<()> {
    for at in [1418, 1419, 1548, 1549] {
        wrong(out, at, store)?;
    }
    Ok(())
}

pub(crate) fn run<W: Write>(out: &mut W, store: &mut [u8]) -> io::Result<()> {
    text(out, b"a fresh store\n")?;
    after(out, b"a fresh store\n", store)?;
    lines(out, store)?;
    channels(out, store)?;
    emptied(out, store)?;
    wrong_contacts(out, store)?;
    wrong_lists(out, store)
}
