// Two requests joined under one header, and what a set makes of both in turn and of the joined one; requests that are sent twice.
use case_lines::showing::{decimal, hex, text};
use case_lines::taking::{messages, requests};
use joining::answers::Join;
use joining::handheld::join;
use std::io;
use std::io::Write;

fn line<W: Write>(out: &mut W, what: &[u8], answer: Join, buffer: &[u8]) -> io::Result<()> {
    text(out, what)?;
    match answer {
        Join::Written(length) => {
            text(out, b": 0,")?;
            hex(out, buffer, length)
        }
        Join::Buffer => text(out, b": the buffer\n"),
        Join::First(_) => text(out, b": the first\n"),
        Join::Second(_) => text(out, b": the second\n"),
        Join::Codings => text(out, b": two coding types\n"),
        Join::TooMany => text(out, b": too many\n"),
        Join::TooLong => text(out, b": too long\n"),
    }
}

// The joined request, or which is at fault.
fn joined<W: Write>(out: &mut W, what: &[u8], first: &[u8], second: &[u8]) -> io::Result<()> {
    let mut buffer = [0xEEu8; 4096];
    let answer = join(first, second, &mut buffer);
    line(out, what, answer, &buffer)
}

fn taken<W: Write>(out: &mut W, store: &mut [u8]) -> io::Result<()> {
    joined(
        out,
        b"two lines, then two channels",
        b"\x02\x02\x00\x0F\x08\x07\x08\x01\xCA\x00\x0A\x40\x02\x1F\x00\x00\x2F\x00\x00",
        b"\x02\x02\x00\x00\x08\xF7\x08\x01\xCE\x00\x07\x40\x02\x0F\x12\x80",
    )?;
    requests(out, b"a fresh store\n", store)?;
    messages(
        out,
        b"joined: 0202 0017 08 07 08 02 CA 000A 40 02 1F 0000 2F 0000 CE 0007 40 02 0F1280\n",
        store,
    )
}

fn without_room<W: Write>(out: &mut W, store: &mut [u8]) -> io::Result<()> {
    requests(out, b"a fresh store\n", store)?;
    requests(
        out,
        b"33 lines, then a channel: 02 CA 0088 C0 21 {21 x % FF 0000} CE 0006 4001 0F1 F\n",
        store,
    )?;
    requests(
        out,
        b"60 channels, then a line and 5 channels: 03 CE 005E C03C {1E x 0F1 280} CA 0007 40 01 1F 0000 CE 000C 4005 0F1 0F1 0F1 0F1 0F1 F\n",
        store,
    )?;
    requests(out, b"60 channels: 01 CE 005E C03C {1E x 0F1 280}\n", store)?;
    requests(
        out,
        b"a line and 5 channels: 02 CA 0007 40 01 1F 0000 CE 000C 4005 0F1 0F1 0F1 0F1 0F1 F\n",
        store,
    )
}

// A store that stayed was left as it was: a replace sent again, and an add.
fn twice<W: Write>(out: &mut W, store: &mut [u8]) -> io::Result<()> {
    requests(out, b"a fresh store\n", store)?;
    requests(out, b"a replace: 01 CE 0007 C002 0F1 280\n", store)?;
    requests(out, b"the replace again: 01 CE 0007 C002 0F1 280\n", store)?;
    requests(out, b"an add: 01 CE 0006 4001 0F1 F\n", store)?;
    requests(out, b"the add again: 01 CE 0006 4001 0F1 F\n", store)
}

fn refused<W: Write>(out: &mut W) -> io::Result<()> {
    joined(
        out,
        b"an FF item in the second",
        b"\x02\x02\x00\x0B\x08\x07\x08\x01\xCE\x00\x06\x40\x01\x0F\x1F",
        b"\x02\x02\x00\x08\x08\x07\x08\x01\xFF\x00\x03\x00",
    )?;
    joined(
        out,
        b"a result query first",
        b"\x02\x02\x00\x04\x08\x00\x0D\x00",
        b"\x02\x02\x00\x0B\x08\x07\x08\x01\xCE\x00\x06\x40\x01\x0F\x1F",
    )?;
    joined(
        out,
        b"two coding types",
        b"\x02\x02\x00\x0B\x08\x07\x08\x01\xCE\x00\x06\x40\x01\x0F\x1F",
        b"\x02\x02\x00\x0B\x08\x04\x08\x01\xCE\x00\x06\x40\x01\x0F\x1F",
    )
}

pub(crate) fn run<W: Write>(out: &mut W, store: &mut [u8]) -> io::Result<()> {
    taken(out, store)?;
    without_room(out, store)?;
    twice(out, store)?;
    refused(out)
}
