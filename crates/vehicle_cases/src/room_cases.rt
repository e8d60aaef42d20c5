// Room for 128 lines and 256 channels, and messages of up to 8,192 bytes.
use case_answers::count_lines::held;
use case_answers::row_lines::row_for;
use case_lines::sets::Set;
use case_lines::taking::requests_for;
use std::io;
use std::io::Write;

// Of the lines added one by one the first 96 would have room, so that the 97th has none.
fn lines<W: Write>(out: &mut W, store: &mut [u8]) -> io::Result<()> {
    requests_for(
        out,
        Set::Vehicle,
        b"a fresh store\n\
        32 lines: 01 CA 0084 C0 20 {20 x % FF 0000}\n\
        97 more, a setting each, the last of them the 129th: 61 {61 x CA 0009 40 01 01 % FF 0000}\n\
        the 33rd line: 01 CA 0008 40 01 32FF 0000\n\
        94 more, which makes 127: 5E {5E x CA 0009 40 01 01 % FF 0000}\n\
        the 128th line: 01 CA 0008 40 01 33FF 0000\n\
        the 129th line: 01 CA 0008 40 01 34FF 0000\n\
        a known line, when full: 01 CA 000A 40 01 33FF 0041 0000\n",
        store,
    )?;
    held(out, Set::Vehicle, store)?;
    row_for(out, Set::Vehicle, store, 1, 126)?;
    row_for(out, Set::Vehicle, store, 1, 127)?;
    row_for(out, Set::Vehicle, store, 1, 128)
}

fn channels<W: Write>(out: &mut W, store: &mut [u8]) -> io::Result<()> {
    requests_for(
        out,
        Set::Vehicle,
        b"65 channels: 01 CE 0066 C041 {20 x 0F11 #} 0F1F\n\
        191 more channels, which makes 256: 01 CE 0123 40BF {5F x 0F11 #} 0F1F\n\
        the 257th channel: 01 CE 0006 4001 0F2F\n\
        257 channels: 01 CE 0186 C101 {80 x 0F11 #} 0F1F\n",
        store,
    )?;
    held(out, Set::Vehicle, store)
}

// 248 lines of 33 bytes, which have 100 different numbers, behind the 8 bytes of a request's head.
fn messages<W: Write>(out: &mut W, store: &mut [u8]) -> io::Result<()> {
    requests_for(
        out,
        Set::Vehicle,
        b"a fresh store\n\
        a message of 8192 bytes: F8 {F8 x CA 0020 40 01 1234567890123456 % FF 00410042004300440045004600470048 0000}\n\
        a message of 8193 bytes: F8 {F8 x CA 0020 40 01 1234567890123456 % FF 00410042004300440045004600470048 0000} 00\n",
        store,
    )?;
    held(out, Set::Vehicle, store)
}

pub(crate) fn run<W: Write>(out: &mut W, store: &mut [u8]) -> io::Result<()> {
    lines(out, store)?;
    channels(out, store)?;
    messages(out, store)
}
