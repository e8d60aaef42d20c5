// Whether bytes are a list table with its count: channels, contacts of which no two have one address, and lines with the order of their keys.
ghost use Rattle.std.specs.Prelude.{◌≡◌, true, ◌↔◌, List, ℕ, ◌+◌, ◌*◌, ◌≤◌, ◌<◌, length, take};
ghost use Rattle.lists.specs.Every.{All};
ghost use Rattle.slots.specs.Slots.{flat, u16};
ghost use Rattle.counted_lists.specs.Counted.{Without, Distinct};
ghost use Rattle.orders.specs.OrderedLists.{slot_key};
ghost use Rattle.tables.specs.Layout.{count_size, channel_width};
ghost use Rattle.store_check.specs.declared.checks_tables.Table.TheVariants.{Members as Of, Lines};
ghost use Rattle.store_check.specs.Checks.{width_in, CountedIn, Shown, mark_of, Filled, ContactsOf, ChannelsOf, LinesOf};

use super::checks_entries::pair;
use super::checks_tables::{Table, places_ok, width};
use super::forms::Form;
use counted_lists::counts::count;
use orders::orders::order_ok;
use slots::bytes::is_clear;
use slots::slots::{place_of, used};
use tables::head_places::{LINE_HEAD, MEMBER_HEAD};
use tables::members::Members;
use tables::places::{
    ADDRESS_BYTES, COUNT, KEY_BYTES, LINE_KEY, LINE_SLOT, MEMBER_ADDRESS, MEMBER_SLOT,
};

// Whether the first two bytes are the count n.
fn count_is(s: &[u8], n: usize) -> bool
    requires { count_size ≤ length s.now }
    ensures { (result ≡ true) ↔ (take count_size s.now ≡ u16 n) }
{
    let count = pair(s[0], s[1]);
    count as usize == n
}

// Whether entries' slots are followed by empty ones only, and the count is that of the entries, also where there are none.
fn counted_ok(form: Form, t: Table, s: &[u8]) -> bool
    requires { count_size ≤ length s.now }
    ensures { (n : ℕ) → length s.now ≡ count_size + n * width_in form t → (result ≡ true) ↔ CountedIn form t n s.now }
{
    if !places_ok(form, t, &s[COUNT..]) {
        return false;
    }
    let w = width(form, t);
    let end = used(&s[COUNT..], w);
    let rest = COUNT + end;
    if !is_clear(&s[rest..]) {
        return false;
    }
    count_is(s, end / w)
}

// Three bytes by weights, which were chosen so that addresses in a row, or in several, have few marks in common.
fn weighed(high: u8, middle: u8, low: u8) -> usize
    ensures { result ≡ high * 326 + middle * 805 + low }
{
    high as usize * 326 + middle as usize * 805 + low as usize
}

// A number that equal keys have in common, and most others do not.
fn mark(key: &[u8]) -> usize
    requires { 3 ≤ length key.now }
    ensures { (result ≡ mark_of key.now) × (result < 1024) }
{
    weighed(key[0], key[1], key[2]) % 1024
}

// Whether no slot of w bytes has the k bytes of a key at o: none is looked at where none with the key's mark was seen.
fn key_new(seen: u8, s: &[u8], w: usize, o: usize, k: usize, key: &[u8]) -> bool
    requires { (0 < w) × (o + k ≤ w) × (length key.now ≡ k) }
    ensures { (xs : List (List ℕ)) → All (Shown w) xs → s.now ≡ flat xs → (seen ≡ 0 → Without (slot_key o k) key.now xs) → (result ≡ true) ↔ Without (slot_key o k) key.now xs }
{
    if seen == 0 {
        return true;
    }
    place_of(s, w, o, k, key) == s.len()
}

// Whether no two slots of w bytes before the first empty one have the same k bytes at o; the caller says the numbers so that the compiler knows them.
fn keys_distinct(s: &[u8], w: usize, o: usize, k: usize) -> bool
    requires { (0 < w) × (3 ≤ k) × (o + k ≤ w) }
    ensures { (n : ℕ) (xs : List (List ℕ)) → Filled w n xs s.now → (result ≡ true) ↔ Distinct (slot_key o k) xs }
{
    let end = used(s, w);
    let mut seen = [0u8; 1024];
    // No plainer by an iterator: each key is compared with the slots behind it, which the numbers name.
    let mut at = end;
    while w <= at {
        let next = at;
        at -= w;
        let a = at + o;
        let b = a + k;
        let m = mark(&s[a..b]);
        if !key_new(seen[m], &s[next..end], w, o, k, &s[a..b]) {
            return false;
        }
        seen[m] = 1;
    }
    true
}

pub(crate) fn contacts_ok(form: Form, who: Members, s: &[u8]) -> bool
    requires { count_size ≤ length s.now }
    ensures { (n : ℕ) → length s.now ≡ count_size + n * width_in form (Of who) → (result ≡ true) ↔ ContactsOf form who n s.now }
{
    if !counted_ok(form, Table::Members(who), s) {
        return false;
    }
    match form {
        Form::Placed => keys_distinct(&s[COUNT..], MEMBER_SLOT, MEMBER_ADDRESS, ADDRESS_BYTES),
        Form::Shared => keys_distinct(&s[COUNT..], MEMBER_HEAD, MEMBER_ADDRESS, ADDRESS_BYTES),
    }
}

pub(crate) fn channels_ok(s: &[u8]) -> bool
    requires { count_size ≤ length s.now }
    ensures { (n : ℕ) → length s.now ≡ count_size + n * channel_width → (result ≡ true) ↔ ChannelsOf n s.now }
{
    counted_ok(Form::Placed, Table::Channels, s)
}

// Lines with their order, which has each of them once and by ascending keys, so that no two have one key.
pub(crate) fn lines_ok(form: Form, s: &[u8], n: usize) -> bool
    requires { (n ≤ 255) × (length s.now ≡ count_size + n * width_in form Lines + n) }
    ensures { (result ≡ true) ↔ LinesOf form n s.now }
{
    let base = s.len() - n;
    if !counted_ok(form, Table::Lines, &s[0..base]) {
        return false;
    }
    let held = count(&s[0..base]);
    match form {
        Form::Placed => order_ok(&s[COUNT..], LINE_SLOT, LINE_KEY, KEY_BYTES, n, held),
        Form::Shared => order_ok(&s[COUNT..], LINE_HEAD, LINE_KEY, KEY_BYTES, n, held),
    }
}
