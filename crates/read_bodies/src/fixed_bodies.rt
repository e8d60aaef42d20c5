// Settings that hold neither a list nor a slot: the emergency key, home numbers, system code and the last item.
ghost use Rattle.std.specs.Prelude.{ℕ};
ghost use Rattle.read_bodies.specs.Targets.{TargetIs};
ghost use Rattle.settings.specs.Meant.{BodyAt};
ghost use Rattle.writing.specs.declared.Coding.{Coding};
ghost use Rattle.writing.specs.declared.Kind.{Kind};

use plan::numbers::{GroupAddress, IndividualAddress};
use read_fields::addresses::address_refused;
use read_fields::bytes::{flag, number, remaining};
use read_fields::hashes::read_hash;
use settings::settings::Setting;
use writing::{HomeNumbers, KeyFlags, KeyTarget, LastFlags, SystemCode};

// An address of the kind that the group bit says.
fn target(group: bool, address: u32) -> KeyTarget
    ensures { TargetIs group address result }
{
    if group {
        KeyTarget::ToGroup(GroupAddress(address))
    } else {
        KeyTarget::ToIndividual(IndividualAddress(address))
    }
}

pub fn read_key(m: &[u8], p: usize) -> Option<(Setting, usize)>
    ensures { (coding : Coding) (left : ℕ) → BodyAt coding Kind.Key left m.now p result }
{
    if remaining(m, p) < 1 {
        return None;
    }
    let n = number(m, p, 1);
    let group = flag(n / 64);
    let flags = KeyFlags {
        voice: flag(n / 32),
        status: flag(n / 16),
        siren: flag(n / 8),
    };
    if n / 128 % 2 == 1 {
        return Some((Setting::Key(KeyTarget::Current(group), flags), p + 1));
    }
    let after = p + 1;
    if remaining(m, after) < 3 {
        return None;
    }
    let address = (number(m, after, 3) % 0x100_0000) as u32;
    if address_refused(address) {
        return None;
    }
    Some((Setting::Key(target(group, address), flags), after + 3))
}

pub fn read_home(m: &[u8], p: usize) -> Option<(Setting, usize)>
    ensures { (coding : Coding) (left : ℕ) → BodyAt coding Kind.Home left m.now p result }
{
    if remaining(m, p) < 3 {
        return None;
    }
    let n = number(m, p, 3);
    let nzi = (n / 32768 % 512) as u16;
    let np = (n / 32 % 1024) as u16;
    if 806 < np {
        return None;
    }
    Some((Setting::Home(HomeNumbers { nzi, np }), p + 3))
}

pub fn read_system(m: &[u8], p: usize) -> Option<(Setting, usize)>
    ensures { (coding : Coding) (left : ℕ) → BodyAt coding Kind.System left m.now p result }
{
    if remaining(m, p) < 3 {
        return None;
    }
    let n = number(m, p, 3);
    let lai = (n / 4096 % 4096) as u16;
    let la = (n / 256 % 16) as u8;
    let roaming = (n / 64 % 4) as u8;
    if 8 < la {
        return None;
    }
    if roaming == 3 {
        return None;
    }
    let par = flag(n / 32);
    let code = SystemCode {
        lai,
        la,
        roaming,
        par,
    };
    Some((Setting::System(code), p + 3))
}

// The last item, which is in range only where no setting is still counted after it.
pub fn read_last(m: &[u8], p: usize, left: usize) -> Option<(Setting, usize)>
    ensures { (coding : Coding) → BodyAt coding Kind.Last left m.now p result }
{
    if 0 < left {
        return None;
    }
    if remaining(m, p) < 1 {
        return None;
    }
    let n = number(m, p, 1);
    let (place, next) = read_hash(m, p + 1, (n % 64) as u8)?;
    let flags = LastFlags {
        reboot: flag(n / 128),
        reply: flag(n / 64),
    };
    Some((Setting::Last(flags, place), next))
}
