// What a parameter says.
ghost use Rattle.std.specs.Prelude.{◌+◌, ◌*◌, ◌≡◌};
ghost use Rattle.writing.specs.Writing.{bit};
ghost use Rattle.tables.specs.Layout.{group_flags, individual_flags, line_flags, key_flags, key_address};
ghost use Rattle.packing.specs.PackedValues.{WhereFit};
ghost use Rattle.packing_office.specs.PackedReading.{entry, parameter, parameter_read, parameter_fields};

use packing::bits::bit_of;
use plan::numbers::GroupAddress;
use report_reading::items::Item;
use writing::{
    GroupFlags, HomeNumbers, IndividualFlags, KeyFlags, KeyTarget, LineFlags, SystemCode,
};

// All that a parameter of any type has, 0 where its type has none.
#[derive(Clone, Copy)]
pub struct Parameter {
    pub asked: u64,
    pub flags: u64,
    pub index: u64,
    pub unknown: bool,
    pub value: u64,
}

fn group_bits(f: GroupFlags) -> u64
    ensures { result ≡ group_flags f }
{
    f.attribute as u64 * 64
        + bit_of(f.broadcast) * 32
        + bit_of(f.encryption) * 16
        + bit_of(f.ovcm) * 8
        + bit_of(f.emergency) * 4
        + f.priority as u64
}

fn individual_bits(f: IndividualFlags) -> u64
    ensures { result ≡ individual_flags f }
{
    bit_of(f.encryption) * 8 + bit_of(f.emergency) * 4 + f.priority as u64
}

// IDtype stands above the flags that a slot keeps together.
fn line_bits(f: LineFlags) -> u64
    ensures { result ≡ bit f.pabx * 16 + line_flags f }
{
    bit_of(f.pabx) * 16 + (bit_of(f.encryption) * 8 + bit_of(f.emergency) * 4 + f.priority as u64)
}

// NZI, NP and 0 in five bits.
fn home_bits(h: HomeNumbers) -> u64
    ensures { result ≡ h.nzi * 32768 + h.np * 32 }
{
    h.nzi as u64 * 32768 + h.np as u64 * 32
}

// LAI, LA, roaming, PAR and 0 in five bits.
fn system_bits(s: SystemCode) -> u64
    ensures { result ≡ s.lai * 4096 + s.la * 256 + s.roaming * 64 + bit s.par * 32 }
{
    s.lai as u64 * 4096 + s.la as u64 * 256 + s.roaming as u64 * 64 + bit_of(s.par) * 32
}

fn known(asked: u64, flags: u64, index: u64, value: u64) -> Parameter
    ensures { result ≡ entry asked flags index value }
{
    Parameter {
        asked,
        flags,
        index,
        unknown: false,
        value,
    }
}

fn key_of(target: KeyTarget, f: KeyFlags) -> Parameter
    ensures { result ≡ entry 0xCB (key_flags (record { target = target; flags = f })) 0 (key_address target) }
{
    let bits = bit_of(f.voice) * 4 + bit_of(f.status) * 2 + bit_of(f.siren);
    match target {
        KeyTarget::Current(group) => known(0xCB, 16 + bit_of(group) * 8 + bits, 0, 0),
        KeyTarget::ToGroup(a) => known(0xCB, 8 + bits, 0, a.0 as u64),
        KeyTarget::ToIndividual(a) => known(0xCB, bits, 0, a.0 as u64),
    }
}

fn said_by(item: Item) -> Parameter
    ensures { result ≡ parameter item }
{
    match item {
        Item::Group(i, f, a, _) => known(0xC8, group_bits(f), i as u64, a.0 as u64),
        Item::Individual(i, f, a, _) => known(0xC9, individual_bits(f), i as u64, a.0 as u64),
        Item::Line(i, f, _, _) => known(0xCA, line_bits(f), i as u64, 0),
        Item::Key(target, f) => key_of(target, f),
        Item::Quick(i, _) => known(0xCC, 0, i as u64, 0),
        Item::Home(h) => known(0xCD, 0, 0, home_bits(h)),
        Item::Channel(n, i) => known(0xCE, 0, i as u64, n as u64),
        Item::System(s) => known(0xCF, 0, 0, system_bits(s)),
        Item::Status(c, _, _) => known(0xD0, 0, c as u64, 0),
        Item::Hash(_) => known(0xFF, 0, 0, 0),
        Item::NoHash => known(0xFF, 0, 0, 0),
        Item::Unknown(b) => Parameter {
            asked: b as u64,
            flags: 0,
            index: 0,
            unknown: true,
            value: 0,
        },
    }
}

// Bits 0 to 7 the type asked, 8 to 15 flags, 16 to 27 index or code, 28 unknown type, 32 to 55 value.
fn pack_said(p: Parameter) -> u64
    ensures { WhereFit (parameter_fields p) result }
{
    p.asked % 256
        + p.flags % 256 * 256
        + p.index % 4096 * 65536
        + bit_of(p.unknown) * 268435456
        + p.value % 16777216 * 4294967296
}

pub fn pack_parameter(answer: Option<(Item, usize)>) -> u64
    ensures { WhereFit (parameter_fields (parameter_read answer)) result }
{
    match answer {
        Some((item, _)) => {
            let p = said_by(item);
            pack_said(p)
        }
        None => 0,
    }
}
