// Whether a slot's bytes are an entry's: texts, digits, addresses, and what holds them.
ghost use Rattle.std.specs.Prelude.{◌≡◌, true, ◌&&◌, ◌↔◌, ℕ, ◌+◌, ◌*◌, ◌≤◌, ◌<◌, length};
ghost use Rattle.lists.specs.Every.{All};
ghost use Rattle.slots.specs.Slots.{EntryOf, u16, u24};
ghost use Rattle.writing.specs.Ranges.{InNumber, InChannel};
ghost use Rattle.tables.specs.declared.members.Members.TheVariants.{OfGroups, OfIndividuals};
ghost use Rattle.tables.specs.Allowed.{TextOk, AddressOk};
ghost use Rattle.tables.specs.Layout.{text_bytes, digit_bytes};
ghost use Rattle.store_check.specs.declared.checks_tables.Table.TheVariants.{StatusTexts, Members as Of, Lines};
ghost use Rattle.store_check.specs.declared.forms.Form.TheVariants.{Placed, Shared};
ghost use Rattle.store_check.specs.Checks.{Both, joined, shown?, units?, digit_then?, digits_fall?, TextIs, text_in, text_width, short, EntryIs, width_in};

use super::forms::{Form, SHORT_UNITS};
use slots::bytes::is_clear;
use slots::slots::used;
use tables::members::Members;
use tables::places::{LINE_DIGITS, LINE_IDTYPE, LINE_TEXT, STATUS_TEXT};

// The place of the last of 18 digits.
const LAST_DIGIT: usize = 17;

// The number of two bytes, high byte first.
pub(crate) fn pair(high: u8, low: u8) -> u32
    ensures { (result ≡ high * 256 + low) × (result < 65536) }
{
    high as u32 * 256 + low as u32
}

// Whether a unit is not 0, and none before it was.
fn still_shown(before: bool, high: u8, low: u8) -> bool
    ensures { result ≡ (before && shown? high low) }
{
    if before {
        if high == 0 { low != 0 } else { true }
    } else {
        false
    }
}

// Whether no unit is 0; a last byte alone is no unit. No unit ends the loop, so that the compiler takes many at a time where it knows how many bytes there are.
pub(crate) fn units_shown(s: &[u8]) -> bool
    ensures { result ≡ units? s.now }
{
    let mut all = true;
    for unit in s.chunks_exact(2) {
        all = still_shown(all, unit[0], unit[1]);
    }
    all
}

// Whether units that are not 0 are followed by zeros only; a text as long as its place is looked at no further.
fn units_ok(s: &[u8]) -> bool
    ensures { (n : ℕ) → length s.now ≡ n * 2 → (result ≡ true) ↔ EntryOf (TextOk n) (text_bytes n) s.now }
{
    if units_shown(s) {
        return true;
    }
    let units = used(s, 2);
    is_clear(&s[units..])
}

// Whether bytes stand for a text of at most so many units: they are its units, or one byte that says how many.
pub(crate) fn text_ok(form: Form, s: &[u8], most: u8) -> bool
    requires { length s.now ≡ text_width form most }
    ensures { (result ≡ true) ↔ EntryOf (TextIs form most) (text_in form most) s.now }
{
    match form {
        Form::Placed => units_ok(s),
        Form::Shared => s[0] <= most,
    }
}

// Whether no byte is above the most.
// By index: an iterator over bytes gives an Option of a reference, which a module for pointers of 32 bits may not hold.
pub fn at_most(s: &[u8], most: u8) -> bool
    ensures { (result ≡ true) ↔ All (λ x. x ≤ most) s.now }
{
    for i in 0..s.len() {
        if most < s[i] {
            return false;
        }
    }
    true
}

// Whether a byte before another is a digit's, or 0 as that is, and all before it were so.
fn still_falls(before: bool, x: u8, y: u8) -> bool
    ensures { result ≡ (before && digit_then? x y) }
{
    if before {
        if x == 0 { y == 0 } else { x <= 10 }
    } else {
        false
    }
}

// Whether every byte but the last is a digit's, or 0 as all behind it are. No byte ends the loop, so that the compiler takes all at once.
fn digits_fall(s: &[u8]) -> bool
    requires { length s.now ≡ 18 }
    ensures { result ≡ digits_fall? s.now }
{
    let mut all = true;
    for i in 0..LAST_DIGIT {
        all = still_falls(all, s[i], s[i + 1]);
    }
    all
}

// Whether 1 to 18 digits, each kept as one more than itself, are followed by zeros only.
fn digits_ok(s: &[u8]) -> bool
    requires { length s.now ≡ 18 }
    ensures { (result ≡ true) ↔ EntryOf InNumber digit_bytes s.now }
{
    if s[0] == 0 {
        return false;
    }
    if !digits_fall(s) {
        return false;
    }
    s[LAST_DIGIT] <= 10
}

// Whether three bytes are an address in range.
pub(crate) fn address_ok(s: &[u8]) -> bool
    requires { length s.now ≡ 3 }
    ensures { (result ≡ true) ↔ EntryOf AddressOk u24 s.now }
{
    let address = s[0] as u32 * 65536 + pair(s[1], s[2]);
    if address < 0x10_0000 {
        return false;
    }
    address % 32768 != 0
}

pub(crate) fn status_ok(form: Form, s: &[u8]) -> bool
    requires { length s.now ≡ width_in form StatusTexts }
    ensures { (result ≡ true) ↔ EntryIs form StatusTexts s.now }
{
    if s[0] != 1 {
        return false;
    }
    text_ok(form, &s[STATUS_TEXT..], SHORT_UNITS)
}

// Whether an address and a text stand there, as in group and individual slots.
fn named_ok(form: Form, s: &[u8]) -> bool
    requires { length s.now ≡ 3 + text_width form short }
    ensures { (result ≡ true) ↔ EntryOf (Both AddressOk (TextIs form short)) (joined u24 (text_in form short)) s.now }
{
    if !address_ok(&s[0..3]) {
        return false;
    }
    text_ok(form, &s[3..], SHORT_UNITS)
}

// Apart from individual_ok: one function with a test of the flags was tried, and the check of a full hand-held took 3 % more instructions.
fn group_ok(form: Form, s: &[u8]) -> bool
    requires { length s.now ≡ width_in form (Of OfGroups) }
    ensures { (result ≡ true) ↔ EntryIs form (Of OfGroups) s.now }
{
    if s[0] < 64 {
        return false;
    }
    named_ok(form, &s[1..])
}

fn individual_ok(form: Form, s: &[u8]) -> bool
    requires { length s.now ≡ width_in form (Of OfIndividuals) }
    ensures { (result ≡ true) ↔ EntryIs form (Of OfIndividuals) s.now }
{
    if 15 < s[0] {
        return false;
    }
    named_ok(form, &s[1..])
}

pub(crate) fn member_ok(form: Form, who: Members, s: &[u8]) -> bool
    requires { length s.now ≡ width_in form (Of who) }
    ensures { (result ≡ true) ↔ EntryIs form (Of who) s.now }
{
    match who {
        Members::OfGroups => group_ok(form, s),
        Members::OfIndividuals => individual_ok(form, s),
    }
}

pub(crate) fn channel_ok(s: &[u8]) -> bool
    requires { length s.now ≡ 2 }
    ensures { (result ≡ true) ↔ EntryOf InChannel u16 s.now }
{
    let channel = pair(s[0], s[1]);
    if channel < 241 {
        return false;
    }
    channel <= 640
}

// A line with its text; with how many units that has, it is the next function's: one function of the form was tried, and the check of a full store took 8 % more instructions.
pub(crate) fn line_ok(s: &[u8]) -> bool
    requires { length s.now ≡ width_in Placed Lines }
    ensures { (result ≡ true) ↔ EntryIs Placed Lines s.now }
{
    if 15 < s[0] {
        return false;
    }
    if 1 < s[LINE_IDTYPE] {
        return false;
    }
    if !digits_ok(&s[LINE_DIGITS..LINE_TEXT]) {
        return false;
    }
    text_ok(Form::Placed, &s[LINE_TEXT..], SHORT_UNITS)
}

pub(crate) fn line_head_ok(s: &[u8]) -> bool
    requires { length s.now ≡ width_in Shared Lines }
    ensures { (result ≡ true) ↔ EntryIs Shared Lines s.now }
{
    if 15 < s[0] {
        return false;
    }
    if 1 < s[LINE_IDTYPE] {
        return false;
    }
    if !digits_ok(&s[LINE_DIGITS..LINE_TEXT]) {
        return false;
    }
    text_ok(Form::Shared, &s[LINE_TEXT..], SHORT_UNITS)
}
