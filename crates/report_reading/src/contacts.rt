// Parameters that are contacts: groups, individuals and lines.
ghost use Rattle.report_reading.specs.Readers.{ItemAt};
ghost use Rattle.reports.specs.declared.Asked.{Asked};

use super::heads::{group_flags, individual_flags, line_flags, read_head};
use super::items::Item;
use plan::numbers::{GroupAddress, IndividualAddress};
use read_fields::addresses::address_refused;
use read_fields::numbers::read_number;
use read_fields::texts::read_text;
use writing::Coding;

pub(crate) fn read_group(m: &[u8], p: usize) -> Option<(Item, usize)>
    ensures { ItemAt Asked.Groups m.now p result }
{
    let n = read_head(m, p, 6, 0x100_0000_0000)?;
    let flags = group_flags(n);
    if flags.attribute == 0 {
        return None;
    }
    let address = (n / 65536 % 0x100_0000) as u32;
    if address_refused(address) {
        return None;
    }
    let (text, next) = read_text(m, p + 6, 16, Coding::Unicode16)?;
    let index = (n / 4096 % 16) as u8;
    Some((Item::Group(index, flags, GroupAddress(address), text), next))
}

pub(crate) fn read_individual(m: &[u8], p: usize) -> Option<(Item, usize)>
    ensures { ItemAt Asked.Individuals m.now p result }
{
    let n = read_head(m, p, 5, 0x1_0000_0000)?;
    let flags = individual_flags(n);
    let address = (n / 256 % 0x100_0000) as u32;
    if address_refused(address) {
        return None;
    }
    let (text, next) = read_text(m, p + 5, 16, Coding::Unicode16)?;
    let index = (n / 16 % 16) as u8;
    Some((
        Item::Individual(index, flags, IndividualAddress(address), text),
        next,
    ))
}

pub(crate) fn read_line(m: &[u8], p: usize) -> Option<(Item, usize)>
    ensures { ItemAt Asked.Lines m.now p result }
{
    let n = read_head(m, p, 3, 0x1_0000)?;
    let flags = line_flags(n);
    let (place, end) = read_number(m, p + 3)?;
    let (text, next) = read_text(m, end, 16, Coding::Unicode16)?;
    let index = (n % 16) as u8;
    Some((Item::Line(index, flags, place, text), next))
}
