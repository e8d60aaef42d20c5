// What is always there: the emergency key, the home numbers and the system code, read back from the bytes of their regions.
ghost use Rattle.std.specs.Prelude.{ℕ, ◌+◌, ◌*◌, ◌≡◌, Bool, length};
ghost use Rattle.lists.specs.Ladder.{Answers};
ghost use Rattle.writing.specs.Writing.{bit, current, to_group};
ghost use Rattle.tables.specs.Allowed.{SystemOk};
ghost use Rattle.tables.specs.Layout.{home_bytes, home_size, key_address, key_bytes, key_size, system_bytes, system_size};
ghost use Rattle.tables.specs.Tables.{Key as KeyEntry};
ghost use Rattle.values.specs.Values.{held, home_asked, key_asked, key_of, system_asked};

use super::answers::EmergencyKey;
use super::tuning::pair_of;
use plan::numbers::{GroupAddress, IndividualAddress};
use screen::names::address_of;
use store_check::checks::is_store;
use tables::limits::Limits;
use tables::places::{HOME, KEY, QUICK, SYSTEM};
use writing::{HomeNumbers, KeyFlags, KeyTarget, SystemCode};

// How many bytes the key's and the home numbers' regions have.
const KEY_SIZE: usize = HOME - KEY;

const HOME_SIZE: usize = SYSTEM - HOME;

// In its region: the key's address, behind its flags; NP, behind NZI; LA, roaming and PAR, behind LAI.
const KEY_ADDRESS: usize = 1;

const NP: usize = 2;

const SYSTEM_FIELDS: usize = 2;

// The lowest bit.
fn odd(n: u8) -> bool
    ensures { (a : ℕ) (b : Bool) → n ≡ a * 2 + bit b → result ≡ b }
{
    n % 2 == 1
}

// Where a key calls that has these bits and this address.
fn target_of(here: bool, group: bool, address: u32) -> KeyTarget
    ensures { (t : KeyTarget) → here ≡ current t → group ≡ to_group t → address ≡ key_address t → result ≡ t }
{
    if here {
        KeyTarget::Current(group)
    } else if group {
        KeyTarget::ToGroup(GroupAddress(address))
    } else {
        KeyTarget::ToIndividual(IndividualAddress(address))
    }
}

// The key of its bytes.
fn key_of(s: &[u8]) -> EmergencyKey
    requires { length s.now ≡ key_size }
    ensures { (k : KeyEntry) → s.now ≡ key_bytes k → result ≡ key_of k }
{
    let bits = s[0];
    let address = address_of(&s[KEY_ADDRESS..KEY_SIZE]);
    let target = target_of(odd(bits / 16), odd(bits / 8), address);
    let flags = KeyFlags {
        voice: odd(bits / 4),
        status: odd(bits / 2),
        siren: odd(bits),
    };
    EmergencyKey { target, flags }
}

// The home numbers of their bytes.
fn home_of(s: &[u8]) -> HomeNumbers
    requires { length s.now ≡ home_size }
    ensures { (h : HomeNumbers) → s.now ≡ home_bytes h → result ≡ h }
{
    HomeNumbers {
        nzi: pair_of(&s[0..NP]),
        np: pair_of(&s[NP..HOME_SIZE]),
    }
}

// The system code of its bytes.
fn system_of(s: &[u8]) -> SystemCode
    requires { length s.now ≡ system_size }
    ensures { (c : SystemCode) → SystemOk c → s.now ≡ system_bytes c → result ≡ c }
{
    let fields = s[SYSTEM_FIELDS];
    SystemCode {
        lai: pair_of(&s[0..SYSTEM_FIELDS]),
        la: fields / 8,
        roaming: fields / 2 % 4,
        par: odd(fields),
    }
}

// Where the emergency key calls, and how, in a store of a set with these limits; none of bytes that are no store, here and below.
pub fn key_in(store: &[u8], limits: Limits) -> Option<EmergencyKey>
    ensures { Answers (key_asked limits store.now) (held result) }
{
    if !is_store(store, limits) {
        return None;
    }
    Some(key_of(&store[KEY..HOME]))
}

// NZI and NP.
pub fn home_in(store: &[u8], limits: Limits) -> Option<HomeNumbers>
    ensures { Answers (home_asked limits store.now) (held result) }
{
    if !is_store(store, limits) {
        return None;
    }
    Some(home_of(&store[HOME..SYSTEM]))
}

// LAI, LA, roaming and PAR.
pub fn system_in(store: &[u8], limits: Limits) -> Option<SystemCode>
    ensures { Answers (system_asked limits store.now) (held result) }
{
    if !is_store(store, limits) {
        return None;
    }
    Some(system_of(&store[SYSTEM..QUICK]))
}
