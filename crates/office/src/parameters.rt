// A parameter's line, by its type.
use super::contacts::{group, individual, key, line};
use super::fields::{flag, head, hex_run, labelled, quoted};
use printing::output::{decimal, hex_pair, text};
use read_fields::hashes::{HashPlace, hash_size};
use read_fields::texts::TextPlace;
use report_reading::items::Item;
use std::io;
use std::io::Write;
use writing::{HomeNumbers, SystemCode};

// A text by its index or code.
fn text_entry<W: Write>(
    out: &mut W,
    m: &[u8],
    what: &[u8],
    n: u8,
    words: TextPlace,
) -> io::Result<()> {
    head(out, what, n)?;
    quoted(out, m, words)
}

fn home<W: Write>(out: &mut W, numbers: HomeNumbers) -> io::Result<()> {
    labelled(out, b"home numbers: NZI ", numbers.nzi)?;
    labelled(out, b" NP ", numbers.np)
}

fn channel<W: Write>(out: &mut W, n: u16, index: u16) -> io::Result<()> {
    head(out, b"scan channel ", index)?;
    decimal(out, n)
}

fn system<W: Write>(out: &mut W, code: SystemCode) -> io::Result<()> {
    labelled(out, b"system code: LAI ", code.lai)?;
    labelled(out, b" LA ", code.la)?;
    labelled(out, b" roaming ", code.roaming)?;
    flag(out, b" PAR ", code.par)
}

fn unknown<W: Write>(out: &mut W, b: u8) -> io::Result<()> {
    text(out, b"unknown type ")?;
    hex_pair(out, b)
}

fn kept<W: Write>(out: &mut W, m: &[u8], place: HashPlace) -> io::Result<()> {
    labelled(out, b"kept hash: code ", place.code)?;
    text(out, b" value ")?;
    hex_run(out, m, place.start, hash_size(place.code))?;
    Ok(())
}

// What a parameter says.
fn entry<W: Write>(out: &mut W, m: &[u8], item: Item) -> io::Result<()> {
    match item {
        Item::Group(index, flags, a, name) => group(out, m, index, flags, a, name),
        Item::Individual(index, flags, a, name) => individual(out, m, index, flags, a, name),
        Item::Line(index, flags, number, name) => line(out, m, index, flags, number, name),
        Item::Key(target, flags) => key(out, target, flags),
        Item::Quick(index, words) => text_entry(out, m, b"quick text ", index, words),
        Item::Home(numbers) => home(out, numbers),
        Item::Channel(n, index) => channel(out, n, index),
        Item::System(code) => system(out, code),
        Item::Status(code, _, words) => text_entry(out, m, b"status text ", code, words),
        Item::Hash(place) => kept(out, m, place),
        Item::NoHash => text(out, b"kept hash: none"),
        Item::Unknown(b) => unknown(out, b),
    }
}

pub(crate) fn show_parameter<W: Write>(out: &mut W, m: &[u8], item: Item) -> io::Result<()> {
    text(out, b"  ")?;
    entry(out, m, item)?;
    text(out, b"\n")
}
