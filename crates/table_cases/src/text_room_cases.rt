// Texts share a room of 4,096 bytes: what a full one takes and refuses, what is freed, and that a vehicle has no such room.
use case_answers::moving::move_all;
use case_answers::row_lines::row;
use case_lines::sets::Set;
use case_lines::showing::{text, yes_or_no};
use case_lines::taking::{requests, requests_for};
use station::handheld::start;
use std::io;
use std::io::Write;
use tables::limits::{HANDHELD_SIZE, VEHICLE_SIZE};

// 64 texts of 23 units and 36 of 16.
fn fill<W: Write>(out: &mut W, set: Set, store: &mut [u8]) -> io::Result<()> {
    requests_for(
        out,
        set,
        b"a fresh store\n\
        63 quick texts of 23 units: 01 CC 0C12 FF {3F x # 00410041004100410041004100410041004100410041004100410041004100410041004100410041004100410041 0000}\n\
        the 64th: 01 CC 0034 41 3F {17 x 0041} 0000\n\
        36 status texts of 16 units, which makes 4096 bytes: 01 D0 04F0 C0 24 {24 x $ 0041004100410041004100410041004100410041004100410041004100410041 0000}\n",
        store,
    )
}

// A setting is judged whole: not by its entries, and not with what comes behind it.
fn when_full<W: Write>(out: &mut W, set: Set, store: &mut [u8]) -> io::Result<()> {
    requests_for(
        out,
        set,
        b"a status text of a unit: 01 D0 0009 40 01 7F 0041 0000\n\
        an empty one: 01 D0 0007 40 01 7F 0000\n\
        that one with a unit: 01 D0 0009 40 01 7F 0041 0000\n\
        a unit more, and status code 128: 01 D0 000C 40 02 7F 0041 0000 80 0000\n\
        a unit more, then LA 9: 02 D0 0009 40 01 7F 0041 0000 CF 0005 0009 00\n\
        16 units and then none for one code, in one setting: 01 D0 002A 40 02 7E {10 x 0041} 0000 7E 0000\n\
        the same, the empty one first: 01 D0 002A 40 02 7E 0000 7E {10 x 0041} 0000\n\
        23 units to a quick index in use: 01 CC 0034 41 05 {17 x 0042} 0000\n\
        a line with a unit: 01 CA 000A 40 01 12FF 0041 0000\n\
        a line without a text: 01 CA 0008 40 01 12FF 0000\n\
        a group slot with a unit: 01 D1 000B 60 03 100001 0041 0000\n\
        an individual slot with a unit: 01 D2 000B 40 03 100001 0041 0000\n\
        a line slot with a unit: 01 D3 000A 40 03 12FF 0041 0000\n\
        a group contact with a unit: 01 C8 000C 60 00 01 100001 0041 0000\n\
        an individual contact with a unit: 01 C9 000B 40 01 100001 0041 0000\n",
        store,
    )
}

// What a delete or a shorter text frees is used again, but not by a setting before it.
fn freed<W: Write>(out: &mut W, store: &mut [u8]) -> io::Result<()> {
    requests(
        out,
        b"16 units, then a quick delete: 02 D0 0027 40 01 7F {10 x 0041} 0000 CC 0006 81 00 0000\n\
        a quick delete, then 16 units: 02 CC 0006 81 00 0000 D0 0027 40 01 7F {10 x 0041} 0000\n\
        the other 7 units: 01 CC 0014 41 00 {07 x 0042} 0000\n\
        a unit more: 01 D0 0009 40 01 7E 0041 0000\n\
        code 127 with 15 units: 01 D0 0025 40 01 7F {0F x 0041} 0000\n\
        line 12 with a unit: 01 CA 000A 40 01 12FF 0043 0000\n\
        line 12 with two: 01 CA 000C 40 01 12FF 0043 0044 0000\n\
        status texts replaced by one of a unit: 01 D0 0009 C0 01 20 0045 0000\n\
        line 12 with two units: 01 CA 000C 40 01 12FF 0043 0044 0000\n",
        store,
    )
}

// The first and the last text of the room, and those that moved.
fn rows<W: Write>(out: &mut W, store: &[u8]) -> io::Result<()> {
    row(out, store, 2, 0)?;
    row(out, store, 2, 63)?;
    row(out, store, 3, 32)?;
    row(out, store, 3, 67)?;
    row(out, store, 3, 127)?;
    row(out, store, 1, 0)
}

// Two texts in either order.
fn orders<W: Write>(out: &mut W, store: &mut [u8]) -> io::Result<()> {
    requests(
        out,
        b"a fresh store\n\
        quick text 1, quick text 0, status code 33, status code 32: 04 CC 0008 41 01 0041 0000 CC 0008 41 00 0042 0000 D0 0009 40 01 21 0043 0000 D0 0009 40 01 20 0044 0000\n",
        store,
    )?;
    let mut other = [0u8; HANDHELD_SIZE];
    requests(
        out,
        b"a fresh store\n\
        the same, the last first: 04 D0 0009 40 01 20 0044 0000 D0 0009 40 01 21 0043 0000 CC 0008 41 00 0042 0000 CC 0008 41 01 0041 0000\n",
        &mut other,
    )?;
    yes_or_no(out, b"the same bytes:", *store == *other.as_slice())?;
    text(out, b"\n")
}

// The export of a full room: to a fresh set, and to one whose lines have texts.
fn moved<W: Write>(out: &mut W, store: &[u8]) -> io::Result<()> {
    let mut other = [0u8; HANDHELD_SIZE];
    start(&mut other);
    text(out, b"a full room to a fresh set\n")?;
    move_all(out, Set::Handheld, Set::Handheld, store, &mut other)?;
    yes_or_no(out, b"the same bytes:", store == other.as_slice())?;
    text(out, b"\n")?;
    requests(
        out,
        b"a fresh store\n\
        a group contact with a unit: 01 C8 000C 60 00 01 100001 0041 0000\n",
        &mut other,
    )?;
    text(out, b"a full room to a used set\n")?;
    move_all(out, Set::Handheld, Set::Handheld, store, &mut other)
}

// Two requests that share no table, in either order: the text has room only behind the delete.
fn two_desks<W: Write>(out: &mut W, store: &mut [u8]) -> io::Result<()> {
    fill(out, Set::Handheld, store)?;
    requests(
        out,
        b"quick text 0 deleted: 01 CC 0006 81 00 0000\n\
        then status code 126 with 16 units: 01 D0 0027 40 01 7E {10 x 0041} 0000\n",
        store,
    )?;
    fill(out, Set::Handheld, store)?;
    requests(
        out,
        b"status code 126 with 16 units: 01 D0 0027 40 01 7E {10 x 0041} 0000\n\
        then quick text 0 deleted: 01 CC 0006 81 00 0000\n",
        store,
    )
}

// A vehicle's texts have places of their own.
fn of_a_vehicle<W: Write>(out: &mut W) -> io::Result<()> {
    let mut store = [0u8; VEHICLE_SIZE];
    text(out, b"the same of a vehicle\n")?;
    fill(out, Set::Vehicle, &mut store)?;
    when_full(out, Set::Vehicle, &mut store)
}

pub(crate) fn run<W: Write>(out: &mut W, store: &mut [u8]) -> io::Result<()> {
    fill(out, Set::Handheld, store)?;
    moved(out, store)?;
    rows(out, store)?;
    when_full(out, Set::Handheld, store)?;
    freed(out, store)?;
    rows(out, store)?;
    orders(out, store)?;
    two_desks(out, store)?;
    of_a_vehicle(out)
}
