// What a vehicle set is exported as, taken by a hand-held: which parts fit, and that the tables are the same then; and back again.
use case_answers::moving::{move_all, move_part};
use case_lines::sets::{Set, start};
use case_lines::showing::{decimal, text, yes_or_no};
use case_lines::taking::requests_for;
use restore::restore::Restored;
use std::io;
use std::io::Write;
use tables::limits::VEHICLE_SIZE;

// Part of a vehicle's store to a hand-held.
fn to_handheld<W: Write>(out: &mut W, part: u32, store: &[u8], other: &mut [u8]) -> io::Result<()> {
    move_part(out, Set::Vehicle, Set::Handheld, part, store, other)
}

// A replace and 32 adds come before the first line without a place.
fn lines<W: Write>(out: &mut W, store: &mut [u8], other: &mut [u8]) -> io::Result<()> {
    requests_for(
        out,
        Set::Vehicle,
        b"a fresh store\n\
        33 lines: 01 CA 0088 C0 21 {21 x % FF 0000}\n",
        store,
    )?;
    requests_for(out, Set::Handheld, b"a fresh store\n", other)?;
    to_handheld(out, 1, store, other)
}

// Each line is a setting of 49 bytes, behind a head of 8 and a replace of 5.
fn long_lines<W: Write>(out: &mut W, store: &mut [u8], other: &mut [u8]) -> io::Result<()> {
    requests_for(
        out,
        Set::Vehicle,
        b"a fresh store\n\
        84 lines of 18 digits and 16 units: 54 {54 x CA 0030 40 01 1234567890123456 % FF 0041004200430044004500460047004800410042004300440045004600470048 0000}\n",
        store,
    )?;
    to_handheld(out, 1, store, other)?;
    requests_for(
        out,
        Set::Vehicle,
        b"one of them deleted: 01 CA 0010 80 01 1234567890123456 00 FF 0000\n",
        store,
    )?;
    to_handheld(out, 1, store, other)
}

fn channels<W: Write>(out: &mut W, store: &mut [u8], other: &mut [u8]) -> io::Result<()> {
    requests_for(
        out,
        Set::Vehicle,
        b"65 channels: 01 CE 0066 C041 {20 x 0F11 #} 0F1F\n",
        store,
    )?;
    to_handheld(out, 4, store, other)
}

// Something in every table, and as many lines and channels as a hand-held has room for.
fn fill<W: Write>(out: &mut W, store: &mut [u8]) -> io::Result<()> {
    requests_for(
        out,
        Set::Vehicle,
        b"a fresh store\n\
        32 lines: 01 CA 0084 C0 20 {20 x % FF 0000}\n\
        64 channels: 01 CE 0064 C040 {20 x 0F11 #}\n\
        key, home numbers and system code: 03 CB 0006 78 100001 CD 0005 07E4C0 CF 0005 FFF8 A0\n\
        a quick text and a status text: 02 CC 0008 41 05 0041 0000 D0 0009 40 01 21 0042 0000\n\
        a group and an individual: 02 D1 000B 7F C0 100001 0043 0000 D2 000B 6C 00 100001 0044 0000\n\
        a group contact and an individual contact: 02 C8 000C D0 00 01 100003 0045 0000 C9 000B F4 01 FF7DC8 0046 0000\n\
        a line slot: 01 D3 000B 42 03 2345FF 0047 0000\n",
        store,
    )
}

// What the hand-held held before does not matter.
fn whole<W: Write>(out: &mut W, store: &mut [u8], other: &mut [u8]) -> io::Result<()> {
    fill(out, store)?;
    requests_for(
        out,
        Set::Handheld,
        b"a hand-held's line, channel and quick text: 03 CA 0008 40 01 99FF 0000 CE 0006 4001 0F1F CC 0008 41 3F 0048 0000\n",
        other,
    )?;
    text(out, b"all parts to the hand-held\n")?;
    move_all(out, Set::Vehicle, Set::Handheld, store, other)
}

// Equal tables are equal bytes, the kept hash aside, which neither has.
fn compare<W: Write>(out: &mut W, store: &[u8], third: &[u8]) -> io::Result<()> {
    yes_or_no(out, b"  the first vehicle's bytes:", store == third)?;
    text(out, b"\n")
}

fn back<W: Write>(out: &mut W, store: &[u8], other: &[u8]) -> io::Result<()> {
    let mut third = [0u8; VEHICLE_SIZE];
    start(Set::Vehicle, &mut third);
    text(out, b"all parts of the hand-held to another vehicle\n")?;
    move_all(out, Set::Handheld, Set::Vehicle, other, &mut third)?;
    compare(out, store, &third)
}

fn number_of(answer: Restored) -> u32 {
    match answer {
        Restored::Same => 0,
        Restored::ReplyBuffer => 10,
        Restored::NotAStore => 11,
        Restored::Buffer => 15,
    }
}

fn restored<W: Write>(out: &mut W, store: &[u8]) -> io::Result<()> {
    let mut third = [0u8; VEHICLE_SIZE];
    start(Set::Vehicle, &mut third);
    let mut buffer = [0u8; 8192];
    let mut reply = [0u8; 20];
    text(out, b"restored in another vehicle: ")?;
    decimal(
        out,
        number_of(restore::vehicle::restore(store, &mut third, &mut buffer, &mut reply)),
    )?;
    text(out, b"\n")?;
    compare(out, store, &third)
}

pub(crate) fn run<W: Write>(out: &mut W, store: &mut [u8], other: &mut [u8]) -> io::Result<()> {
    lines(out, store, other)?;
    long_lines(out, store, other)?;
    channels(out, store, other)?;
    whole(out, store, other)?;
    back(out, store, other)?;
    restored(out, store)
}
