// Queries and reports: what each table is reported as, cuts into messages, unknown types, and refusals; each message is read back.
use case_answers::report_lines::{ask, asked};
use case_lines::sets::Set;
use case_lines::showing::text;
use case_lines::taking::requests;
use std::io;
use std::io::Write;

// The query as it stands, with a buffer of 4,096 bytes EE.
fn ask_bytes<W: Write>(out: &mut W, query: &[u8], index: u32, store: &[u8]) -> io::Result<()> {
    let mut buffer = [0xEEu8; 4096];
    ask(out, Set::Handheld, query, index, store, &mut buffer)
}

// A query of these types, with the same buffer.
fn ask_types<W: Write>(out: &mut W, types: &[u8], index: u32, store: &[u8]) -> io::Result<()> {
    let mut buffer = [0xEEu8; 4096];
    asked(out, Set::Handheld, types, index, store, &mut buffer)
}

fn channels<W: Write>(out: &mut W, store: &mut [u8]) -> io::Result<()> {
    requests(out, b"a fresh store\n", store)?;
    requests(
        out,
        b"channels 241 and 640: 01 CE 0007 C002 0F1 280\n",
        store,
    )?;
    ask_bytes(out, b"\x02\x02\x00\x05\x08\x00\x0A\x01\xCE", 1, store)?;
    ask_types(out, &[0xCE], 0, store)?;
    ask_types(out, &[0xCE], 2, store)
}

fn fresh<W: Write>(out: &mut W, store: &mut [u8]) -> io::Result<()> {
    requests(out, b"a fresh store\n", store)?;
    text(
        out,
        b"a fresh store, asked by CC, D1, 88, BF, CD 00 CF, FF CB\n",
    )?;
    ask_types(out, &[0xCC], 1, store)?;
    ask_types(out, &[0xD1], 1, store)?;
    ask_types(out, &[0x88], 1, store)?;
    ask_types(out, &[0xBF], 1, store)?;
    ask_types(out, &[0xCD, 0x00, 0xCF], 1, store)?;
    ask_types(out, &[0xFF, 0xCB], 1, store)
}

fn numbers<W: Write>(out: &mut W, store: &mut [u8]) -> io::Result<()> {
    requests(out, b"PABX 2345: 01 CA 0009 42 01 2345FF 0000\n", store)?;
    ask_types(out, &[0xCA], 1, store)?;
    requests(
        out,
        b"key on group 100001, voice, siren: 01 CB 0006 68 100001\n",
        store,
    )?;
    ask_types(out, &[0xCB], 1, store)?;
    requests(out, b"hash of code 1: 01 FF 0007 01 01020304\n", store)?;
    ask_types(out, &[0xFF], 1, store)
}

fn names<W: Write>(out: &mut W, store: &mut [u8]) -> io::Result<()> {
    requests(out, b"quick text 5: 01 CC 0008 41 05 0041 0000\n", store)?;
    ask_types(out, &[0xCC], 1, store)?;
    requests(
        out,
        b"status texts 33 and 40: 01 D0 000C 40 02 21 0042 0000 28 0000\n",
        store,
    )?;
    ask_types(out, &[0xD0], 1, store)?;
    requests(
        out,
        b"group contact 100001: 01 C8 000C 74 80 01 100001 0041 0000\n",
        store,
    )?;
    ask_types(out, &[0xC8], 1, store)?;
    requests(
        out,
        b"individual contact 1003E9: 01 C9 0009 5C 01 1003E9 0000\n",
        store,
    )?;
    ask_types(out, &[0xC9, 0xCF], 1, store)
}

// 255 parameters fill a message long before its bytes do.
fn many<W: Write>(out: &mut W, store: &mut [u8]) -> io::Result<()> {
    requests(
        out,
        b"64 channels: 01 CE 0064 C040 {1F x 0F1 280} 0F1 0F1\n",
        store,
    )?;
    ask_types(out, &[0xCE; 4], 1, store)?;
    ask_types(out, &[0xCE; 4], 2, store)?;
    ask_types(out, &[0xCE; 4], 3, store)?;
    Ok(())
}

fn refusals<W: Write>(out: &mut W, store: &mut [u8]) -> io::Result<()> {
    text(
        out,
        b"no types, no count, a false count, OTAPVer 2, a request, no carrier, 6 bytes\n",
    )?;
    ask_bytes(out, b"\x02\x02\x00\x03\x08\x00\x0A", 1, store)?;
    ask_bytes(out, b"\x02\x02\x00\x04\x08\x00\x0A\x00", 1, store)?;
    ask_bytes(out, b"\x02\x02\x00\x04\x08\x00\x0A\x01", 1, store)?;
    ask_bytes(out, b"\x02\x02\x00\x06\x08\x00\x0A\x01\xCE\xCE", 1, store)?;
    ask_bytes(out, b"\x02\x02\x00\x05\x08\x00\x12\x01\xCE", 1, store)?;
    ask_bytes(out, b"\x02\x02\x00\x05\x08\x07\x08\x01\xCE", 1, store)?;
    ask_bytes(out, b"\x02\x03\x00\x05\x08\x00\x0A\x01\xCE", 1, store)?;
    ask_bytes(out, b"\x02\x02\x00\x02\x08\x00", 1, store)?;
    text(out, b"a buffer of 4,095 bytes, and no store\n")?;
    let mut buffer = [0xEEu8; 4095];
    ask(
        out,
        Set::Handheld,
        b"\x02\x02\x00\x05\x08\x00\x0A\x01\xCE",
        1,
        b"",
        &mut buffer,
    )?;
    ask_bytes(out, b"\x02\x02\x00\x05\x08\x00\x0A\x01\xCE", 1, b"")
}

pub(crate) fn run<W: Write>(out: &mut W, store: &mut [u8]) -> io::Result<()> {
    channels(out, store)?;
    fresh(out, store)?;
    numbers(out, store)?;
    names(out, store)?;
    many(out, store)?;
    refusals(out, store)
}
