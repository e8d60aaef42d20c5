// Judging and committing, a call each: what was judged good is committed to the same store, and judged again where another request came between.
use case_lines::sets::Set;
use case_lines::taking::{Call, call_for, requests};
use std::io;
use std::io::Write;

// FF with reboot, send and hash 1.
const HASHED: [u8; 16] = *b"\x02\x02\x00\x0C\x08\x07\x08\x01\xFF\x00\x07\xC1\x11\x22\x33\x44";

// A result query with that hash.
const QUERY: [u8; 12] = *b"\x02\x02\x00\x08\x08\x00\x0D\x01\x11\x22\x33\x44";

// Line 99.
const LINE: [u8; 17] = *b"\x02\x02\x00\x0D\x08\x07\x08\x01\xCA\x00\x08\x40\x01\x99\xFF\x00\x00";

fn call<W: Write>(
    out: &mut W,
    call: Call,
    what: &[u8],
    message: &[u8],
    store: &mut [u8],
) -> io::Result<()> {
    let mut reply = [0u8; 20];
    call_for(out, Set::Handheld, call, what, message, store, &mut reply)
}

fn hashes<W: Write>(out: &mut W, store: &mut [u8]) -> io::Result<()> {
    requests(out, b"a fresh store\n", store)?;
    call(
        out,
        Call::Judge,
        b"judged: FF with reboot, send and hash 1",
        &HASHED,
        store,
    )?;
    call(out, Call::Commit, b"committed after it", &HASHED, store)?;
    call(out, Call::Judge, b"judged: query with it", &QUERY, store)?;
    let mut small = [0u8; 19];
    call_for(
        out,
        Set::Handheld,
        Call::Judge,
        b"judged: reply buffer of 19 bytes",
        &QUERY,
        store,
        &mut small,
    )
}

fn between<W: Write>(out: &mut W, store: &mut [u8]) -> io::Result<()> {
    requests(
        out,
        b"a fresh store\n\
        31 lines: 01 CA 0080 C0 1F {1F x % FF 0000}\n",
        store,
    )?;
    call(out, Call::Judge, b"judged: the 32nd line", &LINE, store)?;
    requests(
        out,
        b"another line in between: 01 CA 0008 40 01 98FF 0000\n",
        store,
    )?;
    call(
        out,
        Call::Commit,
        b"committed: the line judged",
        &LINE,
        store,
    )
}

pub(crate) fn run<W: Write>(out: &mut W, store: &mut [u8]) -> io::Result<()> {
    hashes(out, store)?;
    between(out, store)
}
