// Whether bytes are a kept hash, the emergency key, home numbers and the system code.
ghost use Rattle.std.specs.Prelude.{◌≡◌, true, ◌↔◌, ◌≤◌, length};
ghost use Rattle.slots.specs.Slots.{EntryOf};
ghost use Rattle.tables.specs.Allowed.{HashOk, HomeOk, SystemOk};
ghost use Rattle.tables.specs.Layout.{hash_bytes, key_bytes, home_bytes, system_bytes, quick_at};
ghost use Rattle.shared_texts.specs.Regions.{Stand};
ghost use Rattle.store_check.specs.Checks.{KeyOk};
ghost use Rattle.store_check.specs.Stores.{fixed_regions};

use super::checks_entries::{address_ok, pair};
use slots::bytes::is_zeros;
use tables::places::{HASH, HOME, KEY, QUICK, SYSTEM};

fn hash_ok(s: &[u8]) -> bool
    requires { length s.now ≡ 11 }
    ensures { (result ≡ true) ↔ EntryOf HashOk hash_bytes s.now }
{
    match s[0] {
        0 => is_zeros(&s[1..11]),
        1 => is_zeros(&s[5..11]),
        2 => true,
        _ => false,
    }
}

// An address is kept only where the key does not call the current place.
fn key_ok(s: &[u8]) -> bool
    requires { length s.now ≡ 4 }
    ensures { (result ≡ true) ↔ EntryOf KeyOk key_bytes s.now }
{
    match s[0] {
        0..=15 => address_ok(&s[1..4]),
        16..=31 => is_zeros(&s[1..4]),
        _ => false,
    }
}

fn home_ok(s: &[u8]) -> bool
    requires { length s.now ≡ 4 }
    ensures { (result ≡ true) ↔ EntryOf HomeOk home_bytes s.now }
{
    if 511 < pair(s[0], s[1]) {
        return false;
    }
    pair(s[2], s[3]) <= 806
}

fn system_ok(s: &[u8]) -> bool
    requires { length s.now ≡ 3 }
    ensures { (result ≡ true) ↔ EntryOf SystemOk system_bytes s.now }
{
    if 4095 < pair(s[0], s[1]) {
        return false;
    }
    if 8 < s[2] / 8 {
        return false;
    }
    s[2] / 2 % 4 != 3
}

// The four regions that every store begins with.
pub(crate) fn fixed_ok(store: &[u8]) -> bool
    requires { quick_at ≤ length store.now }
    ensures { (result ≡ true) ↔ Stand fixed_regions 0 store.now }
{
    if !hash_ok(&store[HASH..KEY]) {
        return false;
    }
    if !key_ok(&store[KEY..HOME]) {
        return false;
    }
    if !home_ok(&store[HOME..SYSTEM]) {
        return false;
    }
    system_ok(&store[SYSTEM..QUICK])
}
