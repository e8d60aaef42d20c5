// What stands behind a row, and the settings that the radio works by: each table, places that are empty, a fresh store, and no store. Addresses are decimal.
use case_lines::showing::{decimal, hex, text};
use case_lines::taking::requests;
use screen::rows::row_of;
use std::io;
use std::io::Write;
use values::answers::{EmergencyKey, Target};
use values::handheld::{channel, emergency_key, entry, entry_digits, home_numbers, system_code};
use writing::KeyTarget;

fn field<W: Write>(out: &mut W, name: &[u8], value: u32) -> io::Result<()> {
    text(out, name)?;
    decimal(out, value)
}

fn bit(b: bool) -> u32 {
    u32::from(b)
}

fn wide(n: u8) -> u32 {
    u32::from(n)
}

// The flags that lines, groups and individuals share.
fn flags<W: Write>(out: &mut W, encryption: bool, emergency: bool, priority: u8) -> io::Result<()> {
    field(out, b", encryption ", bit(encryption))?;
    field(out, b", emergency ", bit(emergency))?;
    field(out, b", priority ", wide(priority))
}

fn target<W: Write>(out: &mut W, x: Target) -> io::Result<()> {
    match x {
        Target::Line(f) => {
            text(out, b"0, line")?;
            flags(out, f.encryption, f.emergency, f.priority)?;
            field(out, b", IDtype ", bit(f.pabx))
        }
        Target::Group(f, a) => {
            field(out, b"0, group ", a.0)?;
            flags(out, f.encryption, f.emergency, f.priority)?;
            field(out, b", attribute ", wide(f.attribute))?;
            field(out, b", broadcast ", bit(f.broadcast))?;
            field(out, b", OVCM ", bit(f.ovcm))
        }
        Target::Individual(f, a) => {
            field(out, b"0, individual ", a.0)?;
            flags(out, f.encryption, f.emergency, f.priority)
        }
    }
}

// The answer's line.
fn behind<W: Write>(out: &mut W, table: u32, place: u32, store: &[u8]) -> io::Result<()> {
    field(out, b"  behind table ", table)?;
    field(out, b", place ", place)?;
    text(out, b": ")?;
    let answer = entry(row_of(table, place), store);
    match answer {
        Ok(x) => target(out, x)?,
        Err(why) => decimal(out, why as u32)?,
    }
    text(out, b"\n")
}

// The digits' line, with the whole buffer: what stands behind them stays.
fn digits<W: Write>(
    out: &mut W,
    table: u32,
    place: u32,
    store: &[u8],
    buffer: &mut [u8],
) -> io::Result<()> {
    field(out, b"  digits of table ", table)?;
    field(out, b", place ", place)?;
    text(out, b": ")?;
    let answer = entry_digits(row_of(table, place), store, buffer);
    match answer {
        Ok(n) => field(out, b"0, ", (n % 65536) as u32)?,
        Err(why) => decimal(out, why as u32)?,
    }
    text(out, b", buffer")?;
    hex(out, buffer, buffer.len())
}

fn tuned<W: Write>(out: &mut W, position: usize, store: &[u8]) -> io::Result<()> {
    field(out, b"  channel ", (position % 65536) as u32)?;
    text(out, b": ")?;
    let answer = channel(position, store);
    match answer {
        Ok(c) => field(out, b"0, ", c as u32)?,
        Err(why) => decimal(out, why as u32)?,
    }
    text(out, b"\n")
}

fn armed<W: Write>(out: &mut W, k: EmergencyKey) -> io::Result<()> {
    let to = k.target;
    match to {
        KeyTarget::Current(group) => field(out, b"0, current place, group ", bit(group))?,
        KeyTarget::ToGroup(a) => field(out, b"0, group ", a.0)?,
        KeyTarget::ToIndividual(a) => field(out, b"0, individual ", a.0)?,
    }
    field(out, b", voice ", bit(k.flags.voice))?;
    field(out, b", status ", bit(k.flags.status))?;
    field(out, b", siren ", bit(k.flags.siren))
}

fn key<W: Write>(out: &mut W, store: &[u8]) -> io::Result<()> {
    text(out, b"  key: ")?;
    let answer = emergency_key(store);
    match answer {
        Some(k) => armed(out, k)?,
        None => text(out, b"11")?,
    }
    text(out, b"\n")
}

fn home<W: Write>(out: &mut W, store: &[u8]) -> io::Result<()> {
    text(out, b"  home numbers: ")?;
    let answer = home_numbers(store);
    match answer {
        Some(h) => {
            field(out, b"0, NZI ", h.nzi as u32)?;
            field(out, b", NP ", h.np as u32)?;
        }
        None => text(out, b"11")?,
    }
    text(out, b"\n")
}

fn system<W: Write>(out: &mut W, store: &[u8]) -> io::Result<()> {
    text(out, b"  system code: ")?;
    let answer = system_code(store);
    match answer {
        Some(s) => {
            field(out, b"0, LAI ", s.lai as u32)?;
            field(out, b", LA ", wide(s.la))?;
            field(out, b", roaming ", wide(s.roaming))?;
            field(out, b", PAR ", bit(s.par))?;
        }
        None => text(out, b"11")?,
    }
    text(out, b"\n")
}

fn fixed<W: Write>(out: &mut W, store: &[u8]) -> io::Result<()> {
    key(out, store)?;
    home(out, store)?;
    system(out, store)?;
    for position in 0..3 {
        tuned(out, position, store)?;
    }
    Ok(())
}

// The first place of every table, and what is no table or no place.
fn every<W: Write>(out: &mut W, store: &[u8]) -> io::Result<()> {
    for table in 0..10 {
        behind(out, table, 0, store)?;
    }
    Ok(())
}

fn fill<W: Write>(out: &mut W, store: &mut [u8]) -> io::Result<()> {
    requests(
        out,
        b"lines, PABX with all flags: 01 CA 0009 7E 01 2345FF 0000\n\
        line slot 0, 18 digits: 01 D3 0010 40 00 123456789012345678FF 0000\n\
        group 0, a member group with all flags: 01 D1 0009 7F C0 100001 0000\n\
        group 1, a background group: 01 D1 0009 50 01 100002 0000\n\
        individual 0: 01 D2 0009 6C 00 100001 0000\n\
        group contacts, one in the background: 02 C8 000A D0 00 01 100003 0000 C8 000A 60 00 01 100004 0000\n\
        individual contacts: 01 C9 0009 F4 01 FF7DC8 0000\n\
        channels 241, 640: 01 CE 0007 C002 0F1 280\n\
        key to a group: 01 CB 0006 78 100001\n\
        home numbers: 01 CD 0005 07E4C0\n\
        system code: 01 CF 0005 FFF8 A0\n",
        store,
    )
}

fn number<W: Write>(out: &mut W, store: &[u8]) -> io::Result<()> {
    let mut buffer = [0xEEu8; 18];
    digits(out, 1, 0, store, &mut buffer)?;
    digits(out, 8, 0, store, &mut buffer)?;
    digits(out, 4, 0, store, &mut buffer)?;
    let mut short = [0xEEu8; 17];
    digits(out, 1, 0, store, &mut short)
}

// Every value of a store.
fn all<W: Write>(out: &mut W, store: &[u8]) -> io::Result<()> {
    every(out, store)?;
    fixed(out, store)?;
    number(out, store)
}

// Second places, of which one is a background group's, and places that no table has.
fn others<W: Write>(out: &mut W, store: &[u8]) -> io::Result<()> {
    behind(out, 4, 1, store)?;
    behind(out, 4, 2, store)?;
    behind(out, 6, 1, store)?;
    behind(out, 6, 2, store)?;
    behind(out, 8, 16, store)
}

fn current<W: Write>(out: &mut W, store: &mut [u8]) -> io::Result<()> {
    requests(
        out,
        b"key to the current place, group bit: 01 CB 0003 C0\n",
        store,
    )?;
    key(out, store)
}

pub(crate) fn run<W: Write>(out: &mut W, store: &mut [u8]) -> io::Result<()> {
    requests(out, b"a fresh store\n", store)?;
    text(out, b"a fresh store\n")?;
    all(out, store)?;
    fill(out, store)?;
    all(out, store)?;
    others(out, store)?;
    current(out, store)?;
    text(out, b"no store\n")?;
    all(out, b"")
}
