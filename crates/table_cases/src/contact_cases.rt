// Group and individual contacts, which go by their address: fields, room for 64 each, and background groups, which have no row.
use case_answers::row_lines::row;
use case_lines::showing::text;
use case_lines::taking::requests;
use restore::handheld::restore;
use station::handheld::start;
use std::io;
use std::io::Write;
use tables::limits::HANDHELD_SIZE;

// The first four rows of a table.
fn rows<W: Write>(out: &mut W, store: &[u8], table: u32) -> io::Result<()> {
    for place in 0..4 {
        row(out, store, table, place)?;
    }
    Ok(())
}

fn fields<W: Write>(out: &mut W, store: &mut [u8]) -> io::Result<()> {
    requests(
        out,
        b"a fresh store\n\
        group contact 100001: 01 C8 000C 60 00 01 100001 0041 0000\n\
        group contact 100001 with reserved bits: 01 C8 000C 60 3F 01 100001 0041 0000\n\
        group contact with attribute 00: 01 C8 000C 40 00 01 100001 0041 0000\n\
        delete with attribute 00: 01 C8 000A 80 00 01 100001 0000\n\
        replace by none with attribute 00: 01 C8 0005 C0 00 00\n\
        group contacts with DataLength 4: 01 C8 0004 D0 00\n\
        group contacts with operation 00: 01 C8 0005 20 00 00\n\
        group contact 0FFFFF: 01 C8 000A 60 00 01 0FFFFF 0000\n\
        delete of group contact 108000: 01 C8 000A A0 00 01 108000 0000\n\
        group contact with a text of 17 units: 01 C8 002C 60 00 01 100001 {11 x 0041} 0000\n\
        individual contact 100001: 01 C9 0009 40 01 100001 0000\n\
        individual contact 100001 with reserved bits: 01 C9 0009 43 01 100001 0000\n\
        delete of individual contact 0FFFFF: 01 C9 0009 80 01 0FFFFF 0000\n\
        individual contacts with operation 00: 01 C9 0004 00 00\n\
        individual contacts with a byte more: 01 C9 0005 C0 00 00\n\
        type D4: 01 D4 0004 C0 00\n",
        store,
    )?;
    rows(out, store, 6)?;
    rows(out, store, 7)
}

// A background group keeps its position and its place in an export, and the rows behind it do not move up.
fn background<W: Write>(out: &mut W, store: &mut [u8]) -> io::Result<()> {
    requests(
        out,
        b"a fresh store\n\
        a response, a background and a member group: 03 C8 000C 60 00 01 100001 0041 0000 C8 000C 50 00 01 100002 0042 0000 C8 000C 70 00 01 100003 0043 0000\n\
        slots of a response, a background and a member group: 03 D1 000B 60 00 100001 0041 0000 D1 000B 50 01 100002 0042 0000 D1 000B 70 02 100003 0043 0000\n",
        store,
    )?;
    rows(out, store, 6)?;
    rows(out, store, 4)?;
    requests(
        out,
        b"the background group becomes a response group: 01 C8 000C 60 00 01 100002 0044 0000\n\
        the first becomes a background group: 01 C8 000C 5C 40 01 100001 0045 0000\n",
        store,
    )?;
    rows(out, store, 6)
}

// The same contacts in another set, which takes what this one is exported as.
fn exported<W: Write>(out: &mut W, store: &[u8]) -> io::Result<()> {
    let mut other = [0u8; HANDHELD_SIZE];
    start(&mut other);
    let mut buffer = [0u8; 4096];
    let mut reply = [0u8; 20];
    restore(store, &mut other, &mut buffer, &mut reply);
    text(out, b"the contacts in another set\n")?;
    rows(out, &other, 6)?;
    rows(out, &other, 4)
}

fn deleted<W: Write>(out: &mut W, store: &mut [u8]) -> io::Result<()> {
    requests(
        out,
        b"delete of group contact 100002: 01 C8 000A A0 00 01 100002 0000\n\
        delete of group contact 100002 again: 01 C8 000A A0 00 01 100002 0000\n\
        individual contact 100003, which is a group's address too: 01 C9 000B 40 01 100003 0049 0000\n\
        delete of group contact 100001: 01 C8 000A 90 00 01 100001 0000\n",
        store,
    )?;
    rows(out, store, 6)?;
    rows(out, store, 7)
}

fn room<W: Write>(out: &mut W, store: &mut [u8]) -> io::Result<()> {
    requests(
        out,
        b"a fresh store\n\
        65 group contacts, all different: 01 C8 014A E0 00 41 {41 x 1001 # 0000}\n\
        65 group contacts, a setting each: 41 {41 x C8 000A 60 00 01 1001 # 0000}\n\
        64 group contacts: 01 C8 0145 E0 00 40 {40 x 1001 # 0000}\n\
        65 group contacts with 64 addresses: 01 C8 014A E0 00 41 {40 x 1001 # 0000} 100100 0000\n\
        the 65th group contact: 01 C8 000A 60 00 01 100200 0000\n\
        a known group contact, when full: 01 C8 000C 7C C0 01 10013F 0047 0000\n\
        a delete, then the 65th: 02 C8 000A A0 00 01 100100 0000 C8 000A 60 00 01 100200 0000\n\
        65 individual contacts: 01 C9 0149 C0 41 {41 x 1001 # 0000}\n\
        64 individual contacts: 01 C9 0144 C0 40 {40 x 1001 # 0000}\n\
        the 65th individual contact: 01 C9 0009 40 01 100200 0000\n",
        store,
    )?;
    row(out, store, 6, 62)?;
    row(out, store, 6, 63)?;
    row(out, store, 6, 64)?;
    row(out, store, 7, 63)?;
    requests(
        out,
        b"group contacts replaced by none: 01 C8 0005 D0 00 00\n\
        individual contacts replaced by none: 01 C9 0004 C0 00\n",
        store,
    )?;
    row(out, store, 6, 0)?;
    row(out, store, 7, 0)
}

pub(crate) fn run<W: Write>(out: &mut W, store: &mut [u8]) -> io::Result<()> {
    fields(out, store)?;
    background(out, store)?;
    exported(out, store)?;
    deleted(out, store)?;
    room(out, store)
}
