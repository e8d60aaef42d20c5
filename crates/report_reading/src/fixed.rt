// Parameters with neither text nor number: the emergency key, home numbers, channels, system code and kept hash.
ghost use Rattle.report_reading.specs.Readers.{ItemAt, TargetIs, KeptAt};
ghost use Rattle.reports.specs.declared.Asked.{Asked};

use super::heads::read_head;
use super::items::Item;
use plan::numbers::{GroupAddress, IndividualAddress};
use read_fields::addresses::address_refused;
use read_fields::bytes::{flag, number, remaining};
use read_fields::hashes::read_hash;
use writing::{HomeNumbers, KeyFlags, KeyTarget, SystemCode};

// Where the key calls: an address is 0 with current, and in range without.
fn key_target(group: bool, current: bool, address: u32) -> Option<KeyTarget>
    ensures { TargetIs group current address result }
{
    if current {
        if address == 0 {
            return Some(KeyTarget::Current(group));
        }
        return None;
    }
    if address_refused(address) {
        return None;
    }
    if group {
        Some(KeyTarget::ToGroup(GroupAddress(address)))
    } else {
        Some(KeyTarget::ToIndividual(IndividualAddress(address)))
    }
}

pub(crate) fn read_key(m: &[u8], p: usize) -> Option<(Item, usize)>
    ensures { ItemAt Asked.Key m.now p result }
{
    let n = read_head(m, p, 5, 0x1_0000_0000)?;
    let address = (n % 0x100_0000) as u32;
    let target = key_target(flag(n / 0x8000_0000), flag(n / 0x4000_0000), address)?;
    let flags = KeyFlags {
        voice: flag(n / 0x2000_0000),
        status: flag(n / 0x1000_0000),
        siren: flag(n / 0x800_0000),
    };
    Some((Item::Key(target, flags), p + 5))
}

pub(crate) fn read_home(m: &[u8], p: usize) -> Option<(Item, usize)>
    ensures { ItemAt Asked.Home m.now p result }
{
    let n = read_head(m, p, 4, 0x100_0000)?;
    let nzi = (n / 32768 % 512) as u16;
    let np = (n / 32 % 1024) as u16;
    if 806 < np {
        return None;
    }
    Some((Item::Home(HomeNumbers { nzi, np }), p + 4))
}

pub(crate) fn read_channel(m: &[u8], p: usize) -> Option<(Item, usize)>
    ensures { ItemAt Asked.Channels m.now p result }
{
    let n = read_head(m, p, 4, 0x100_0000)?;
    let channel = (n / 4096 % 4096) as u16;
    let index = (n % 4096) as u16;
    if !(241..=640).contains(&channel) {
        return None;
    }
    Some((Item::Channel(channel, index), p + 4))
}

pub(crate) fn read_system(m: &[u8], p: usize) -> Option<(Item, usize)>
    ensures { ItemAt Asked.System m.now p result }
{
    let n = read_head(m, p, 4, 0x100_0000)?;
    let lai = (n / 4096 % 4096) as u16;
    let la = (n / 256 % 16) as u8;
    let roaming = (n / 64 % 4) as u8;
    if 8 < la {
        return None;
    }
    if roaming == 3 {
        return None;
    }
    let par = flag(n / 32);
    let code = SystemCode {
        lai,
        la,
        roaming,
        par,
    };
    Some((Item::System(code), p + 4))
}

// The hash that is kept: a code of 1 or 2 and its value.
fn read_kept(m: &[u8], p: usize) -> Option<(Item, usize)>
    ensures { KeptAt m.now p result }
{
    if remaining(m, p) < 1 {
        return None;
    }
    let code = (number(m, p, 1) % 256) as u8;
    if code == 0 {
        return None;
    }
    let (place, next) = read_hash(m, p + 1, code)?;
    Some((Item::Hash(place), next))
}

// A count of 0, or of 1 and the hash.
pub(crate) fn read_hashes(m: &[u8], p: usize) -> Option<(Item, usize)>
    ensures { ItemAt Asked.Hash m.now p result }
{
    if remaining(m, p) < 1 {
        return None;
    }
    match number(m, p, 1) {
        0 => Some((Item::NoHash, p + 1)),
        1 => read_kept(m, p + 1),
        _ => None,
    }
}
