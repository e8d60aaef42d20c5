// Parameters that are contacts, and the emergency key: whom they call, and their flags.
use super::fields::{digits, flag, head, labelled, quoted};
use plan::numbers::{GroupAddress, IndividualAddress};
use printing::output::{address, text};
use read_fields::numbers::NumberPlace;
use read_fields::texts::TextPlace;
use std::io;
use std::io::Write;
use writing::{GroupFlags, IndividualFlags, KeyFlags, KeyTarget, LineFlags};

// An address and a text.
fn addressed<W: Write>(out: &mut W, m: &[u8], a: u32, name: TextPlace) -> io::Result<()> {
    address(out, a)?;
    text(out, b" ")?;
    quoted(out, m, name)
}

// The flags that individuals and lines have.
fn few_flags<W: Write>(
    out: &mut W,
    encryption: bool,
    emergency: bool,
    priority: u8,
) -> io::Result<()> {
    flag(out, b" encryption ", encryption)?;
    flag(out, b" emergency ", emergency)?;
    labelled(out, b" priority ", priority)
}

pub(crate) fn group<W: Write>(
    out: &mut W,
    m: &[u8],
    index: u8,
    flags: GroupFlags,
    a: GroupAddress,
    name: TextPlace,
) -> io::Result<()> {
    head(out, b"group contact ", index)?;
    addressed(out, m, a.0, name)?;
    labelled(out, b" attribute ", flags.attribute)?;
    flag(out, b" broadcast ", flags.broadcast)?;
    flag(out, b" encryption ", flags.encryption)?;
    flag(out, b" OVCM ", flags.ovcm)?;
    flag(out, b" emergency ", flags.emergency)?;
    labelled(out, b" priority ", flags.priority)
}

pub(crate) fn individual<W: Write>(
    out: &mut W,
    m: &[u8],
    index: u8,
    flags: IndividualFlags,
    a: IndividualAddress,
    name: TextPlace,
) -> io::Result<()> {
    head(out, b"individual contact ", index)?;
    addressed(out, m, a.0, name)?;
    few_flags(out, flags.encryption, flags.emergency, flags.priority)
}

pub(crate) fn line<W: Write>(
    out: &mut W,
    m: &[u8],
    index: u8,
    flags: LineFlags,
    number: NumberPlace,
    name: TextPlace,
) -> io::Result<()> {
    head(out, b"line contact ", index)?;
    if flags.pabx {
        text(out, b"PABX ")?;
    } else {
        text(out, b"PSTN ")?;
    }
    digits(out, m, number)?;
    text(out, b" ")?;
    quoted(out, m, name)?;
    few_flags(out, flags.encryption, flags.emergency, flags.priority)
}

// Where the key calls.
fn calls<W: Write>(out: &mut W, target: KeyTarget) -> io::Result<()> {
    match target {
        KeyTarget::Current(group) => flag(out, b"current place group ", group),
        KeyTarget::ToGroup(a) => {
            text(out, b"group ")?;
            address(out, a.0)
        }
        KeyTarget::ToIndividual(a) => {
            text(out, b"individual ")?;
            address(out, a.0)
        }
    }
}

pub(crate) fn key<W: Write>(out: &mut W, target: KeyTarget, flags: KeyFlags) -> io::Result<()> {
    text(out, b"emergency key: ")?;
    calls(out, target)?;
    flag(out, b" voice ", flags.voice)?;
    flag(out, b" status ", flags.status)?;
    flag(out, b" siren ", flags.siren)
}
