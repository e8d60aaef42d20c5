// Buffers, the carrier, and what a request has before its settings.
use case_lines::showing::started;
use case_lines::taking::{answer, answer_into, messages};
use station::handheld::start;
use std::io;
use std::io::Write;
use tables::limits::HANDHELD_SIZE;

// A request that is taken: the emergency key calls the current place by voice.
const GOOD: [u8; 12] = *b"\x02\x02\x00\x08\x08\x07\x08\x01\xCB\x00\x03\xA0";

fn stores<W: Write>(out: &mut W) -> io::Result<()> {
    let mut store = [0u8; HANDHELD_SIZE];
    answer(out, b"store that was never started", &GOOD, &mut store)?;
    started(out, b"starting 24576 bytes", start(&mut store))?;
    answer(out, b"the same store, started", &GOOD, &mut store)?;
    let mut old = [0u8; 12288];
    started(out, b"starting 12288 bytes", start(&mut old))?;
    answer(out, b"store of 12288 bytes", &GOOD, &mut old)
}

fn buffers<W: Write>(out: &mut W, store: &mut [u8]) -> io::Result<()> {
    let mut small = [0u8; 19];
    answer_into(out, b"reply buffer of 19 bytes", &GOOD, store, &mut small)?;
    let mut none = [0u8; 0];
    answer_into(out, b"the same, and no store", b"", &mut none, &mut small)?;
    answer(out, b"no store, and no message", b"", &mut none)
}

fn sizes<W: Write>(out: &mut W, store: &mut [u8]) -> io::Result<()> {
    answer(out, b"no message", b"", store)?;
    let most = [0u8; 4096];
    answer(out, b"message of 4096 bytes, all 0", &most, store)?;
    let long = [0u8; 4097];
    answer(out, b"message of 4097 bytes, all 0", &long, store)
}

fn carriers<W: Write>(out: &mut W, store: &mut [u8]) -> io::Result<()> {
    messages(
        out,
        b"message of 6 bytes: 0202 0002 08 07\n\
        start bytes 02 03: 0203 0008 08 07 08 01 CB 0003 A0\n\
        start bytes 01 02: 0102 0008 08 07 08 01 CB 0003 A0\n\
        length one too small: 0202 0007 08 07 08 01 CB 0003 A0\n\
        length one too large: 0202 0009 08 07 08 01 CB 0003 A0\n\
        MFID 09: 0202 0008 09 07 08 01 CB 0003 A0\n\
        MsgType 1, a reply: 0202 0006 08 00 09 00 00 00\n\
        MsgType 4: 0202 0008 08 07 0C 01 CB 0003 A0\n\
        MsgType 1 and OTAPVer 2: 0202 0008 08 07 11 01 CB 0003 A0\n\
        OTAPVer 2: 0202 0008 08 07 10 01 CB 0003 A0\n\
        OTAPVer 2 and no ParamSum: 0202 0003 08 07 10\n\
        query of OTAPVer 0: 0202 0004 08 00 05 00\n\
        no ParamSum: 0202 0003 08 07 08\n\
        ParamSum 0: 0202 0004 08 07 08 00\n\
        coding type 0: 0202 0008 08 00 08 01 CB 0003 A0\n\
        coding type 0101: 0202 0008 08 05 08 01 CB 0003 A0\n\
        coding type 1100: 0202 0008 08 0C 08 01 CB 0003 A0\n\
        coding type 0 and an unknown type: 0202 0005 08 00 08 01 D4\n\
        length 0, not stated: 0202 0000 08 07 08 01 CB 0003 A0\n\
        the same, length stated, reserved bits set: 0202 0008 08 F7 08 01 CB 0003 A0\n",
        store,
    )
}

pub(crate) fn run<W: Write>(out: &mut W, store: &mut [u8]) -> io::Result<()> {
    stores(out)?;
    start(store);
    buffers(out, store)?;
    sizes(out, store)?;
    carriers(out, store)
}
