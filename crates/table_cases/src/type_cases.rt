// Lines of the two IDtypes with one number: each is overwritten and deleted alone, both are exported, and a replace removes both.
use case_answers::row_lines::row;
use case_lines::showing::text;
use case_lines::taking::requests;
use restore::handheld::restore;
use station::handheld::start;
use std::io;
use std::io::Write;
use tables::limits::HANDHELD_SIZE;

// The rows of two lines, and the one behind them.
fn rows<W: Write>(out: &mut W, store: &[u8]) -> io::Result<()> {
    row(out, store, 1, 0)?;
    row(out, store, 1, 1)?;
    row(out, store, 1, 2)
}

fn overwritten<W: Write>(out: &mut W, store: &mut [u8]) -> io::Result<()> {
    requests(
        out,
        b"a fresh store\n\
        PSTN line 2345: 01 CA 000B 40 01 2345FF 0054 0000\n\
        delete of PABX line 2345, where PSTN is: 01 CA 0009 82 01 2345FF 0000\n\
        PABX line 2345: 01 CA 000B 42 01 2345FF 0050 0000\n\
        PSTN line 2345 with another text: 01 CA 000B 40 01 2345FF 0055 0000\n",
        store,
    )?;
    rows(out, store)?;
    requests(
        out,
        b"PABX line 2345 with another text: 01 CA 000B 42 01 2345FF 0051 0000\n",
        store,
    )?;
    rows(out, store)
}

// Both lines in another set, which takes what this one is exported as.
fn exported<W: Write>(out: &mut W, store: &[u8]) -> io::Result<()> {
    let mut other = [0u8; HANDHELD_SIZE];
    start(&mut other);
    let mut buffer = [0u8; 4096];
    let mut reply = [0u8; 20];
    restore(store, &mut other, &mut buffer, &mut reply);
    text(out, b"both lines in another set\n")?;
    rows(out, &other)
}

fn removed<W: Write>(out: &mut W, store: &mut [u8]) -> io::Result<()> {
    requests(
        out,
        b"delete of PSTN line 2345: 01 CA 0009 80 01 2345FF 0000\n\
        delete of PSTN line 2345, where PABX is: 01 CA 0009 80 01 2345FF 0000\n",
        store,
    )?;
    rows(out, store)?;
    requests(
        out,
        b"lines replaced by PSTN line 12: 01 CA 0008 C0 01 12FF 0000\n",
        store,
    )?;
    rows(out, store)?;
    requests(
        out,
        b"PABX lines replaced by none: 01 CA 0004 C2 00\n",
        store,
    )?;
    rows(out, store)
}

pub(crate) fn run<W: Write>(out: &mut W, store: &mut [u8]) -> io::Result<()> {
    overwritten(out, store)?;
    exported(out, store)?;
    removed(out, store)
}
