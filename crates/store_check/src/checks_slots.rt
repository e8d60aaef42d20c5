// Whether a slot is empty or an entry's, and whether all of a table are.
ghost use Rattle.std.specs.Prelude.{◌≡◌, true, ◌↔◌, ℕ, ◌*◌, ◌<◌, length};
ghost use Rattle.store_check.specs.declared.checks_tables.Table.{Table};
ghost use Rattle.store_check.specs.declared.forms.Form.{Form};
ghost use Rattle.store_check.specs.declared.checks_tables.Table.TheVariants.{QuickTexts, StatusTexts, Members as Of, Channels, Lines};
ghost use Rattle.store_check.specs.declared.forms.Form.TheVariants.{Placed, Shared};
ghost use Rattle.store_check.specs.Checks.{width_in, SlotIs, Tells, PlacesIn};

use super::checks_entries::{channel_ok, line_head_ok, line_ok, member_ok, status_ok, text_ok};
use super::forms::{Form, QUICK_UNITS};
use slots::bytes::{is_clear, is_zeros};
use tables::members::Members;
use tables::places::{LINE_DIGITS, MEMBER_ADDRESS};

// An empty slot is an empty text's.
pub(crate) fn quick_slot(form: Form, s: &[u8]) -> bool
    requires { length s.now ≡ width_in form QuickTexts }
    ensures { (result ≡ true) ↔ SlotIs form QuickTexts s.now }
{
    text_ok(form, s, QUICK_UNITS)
}

// The byte that is asked first is 0 in an empty slot, and in no entry's.
pub(crate) fn status_slot(form: Form, s: &[u8]) -> bool
    requires { length s.now ≡ width_in form StatusTexts }
    ensures { (result ≡ true) ↔ SlotIs form StatusTexts s.now }
{
    if s[0] == 0 {
        return is_clear(s);
    }
    status_ok(form, s)
}

pub(crate) fn member_slot(form: Form, who: Members, s: &[u8]) -> bool
    requires { length s.now ≡ width_in form (Of who) }
    ensures { (result ≡ true) ↔ SlotIs form (Of who) s.now }
{
    if s[MEMBER_ADDRESS] == 0 {
        return is_clear(s);
    }
    member_ok(form, who, s)
}

pub(crate) fn line_slot(s: &[u8]) -> bool
    requires { length s.now ≡ width_in Placed Lines }
    ensures { (result ≡ true) ↔ SlotIs Placed Lines s.now }
{
    if s[LINE_DIGITS] == 0 {
        return is_clear(s);
    }
    line_ok(s)
}

pub(crate) fn line_head(s: &[u8]) -> bool
    requires { length s.now ≡ width_in Shared Lines }
    ensures { (result ≡ true) ↔ SlotIs Shared Lines s.now }
{
    if s[LINE_DIGITS] == 0 {
        return is_clear(s);
    }
    line_head_ok(s)
}

pub(crate) fn channel_slot(s: &[u8]) -> bool
    requires { length s.now ≡ width_in Placed Channels }
    ensures { (result ≡ true) ↔ SlotIs Placed Channels s.now }
{
    if is_zeros(s) {
        return true;
    }
    channel_ok(s)
}

// Whether every slot is one that the test takes; the width is the type's, so that the compiler knows it.
pub(crate) fn every<const W: usize, F: Fn(&[u8]) -> bool>(s: &[u8], takes: F) -> bool
    requires wide { 0 < W }
    requires callable { (x : _) → length x.now ≡ W → F.pre takes x }
    ensures { (form : Form) (t : Table) (n : ℕ) → W ≡ width_in form t → Tells (F.post takes) form t → length s.now ≡ n * W → (result ≡ true) ↔ PlacesIn form t n s.now }
{
    for slot in s.chunks_exact(W) {
        if !takes(slot) {
            return false;
        }
    }
    true
}
