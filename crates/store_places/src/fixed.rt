// The fixed parts of the store: the emergency key, home numbers, the system code and the hash kept.
ghost use Rattle.std.specs.Prelude.{◌≡◌, ◌+◌, ◌*◌, ◌≤◌, length};
ghost use Rattle.writing.specs.Writing.{bit, current, to_group};
ghost use Rattle.store_places.specs.Changes.{KeyPut, SystemPut, HashPut};
ghost use Rattle.tables.specs.Layout.{key_address, home_bytes, hash_bytes};
ghost use Rattle.tables.specs.Tables.{no_hash};

use read_fields::hashes::{HashPlace, hash_size};
use slots::bytes::{copy, copy_padded, wipe};
use tables::heads::{bit_of, head_of};
use writing::{HomeNumbers, KeyFlags, KeyTarget, SystemCode};

// The bits of a target: 16 says the current place, 8 a group.
fn target_bits(target: KeyTarget) -> u8
    ensures { (result ≡ bit (current target) * 16 + bit (to_group target) * 8) × (result ≤ 24) }
{
    match target {
        KeyTarget::Current(group) => 16 + bit_of(group) * 8,
        KeyTarget::ToGroup(_) => 8,
        KeyTarget::ToIndividual(_) => 0,
    }
}

// The address of a target: 0 for the current place.
fn target_address(target: KeyTarget) -> u32
    ensures { result ≡ key_address target }
{
    match target {
        KeyTarget::Current(_) => 0,
        KeyTarget::ToGroup(address) => address.0,
        KeyTarget::ToIndividual(address) => address.0,
    }
}

pub fn put_key(region: &mut [u8], target: KeyTarget, flags: KeyFlags)
    ensures { KeyPut target flags region.old region.new }
{
    let byte = target_bits(target)
        + bit_of(flags.voice) * 4
        + bit_of(flags.status) * 2
        + bit_of(flags.siren);
    let bytes = head_of(byte, target_address(target));
    copy(region, &bytes);
}

pub fn put_home(region: &mut [u8], h: HomeNumbers)
    ensures { length region.old ≡ 4 → region.new ≡ home_bytes h }
{
    let bytes: [u8; 4] = [
        (h.nzi / 256) as u8,
        (h.nzi % 256) as u8,
        (h.np / 256) as u8,
        (h.np % 256) as u8,
    ];
    copy(region, &bytes);
}

pub fn put_system(region: &mut [u8], s: SystemCode)
    ensures { SystemPut s region.old region.new }
{
    let bytes: [u8; 3] = [
        (s.lai / 256) as u8,
        (s.lai % 256) as u8,
        s.la % 16 * 8 + s.roaming % 4 * 2 + bit_of(s.par),
    ];
    copy(region, &bytes);
}

// No hash is kept.
pub fn clear_hash(region: &mut [u8])
    ensures { length region.old ≡ 11 → region.new ≡ hash_bytes no_hash }
{
    wipe(region);
}

// The code, the value's bytes as they stand in the message, and zeros after them. A place outside the message changes nothing.
pub fn put_hash(region: &mut [u8], m: &[u8], place: HashPlace)
    ensures { HashPut m.now place region.old region.new }
{
    let size = hash_size(place.code);
    if size == 0 {
        clear_hash(region);
        return;
    }
    let a = place.start;
    if m.len() < a {
        return;
    }
    if m.len() - a < size {
        return;
    }
    if region.len() < 1 {
        return;
    }
    let e = a + size;
    copy_padded(&mut region[1..], &m[a..e]);
    region[0] = place.code;
}
