// Whether lent bytes are a store.
ghost use Rattle.std.specs.Prelude.{◌≡◌, true, ◌↔◌, length};
ghost use Rattle.tables.specs.Forms.{Roomy, IsStore};
ghost use Rattle.tables.specs.Store.{StoreOf};
ghost use Rattle.store_check.specs.Checks.{IsPlaced};

use super::checks_regions::{regions_end, regions_ok};
use super::checks_shared::is_shared;
use super::forms::Form;
use slots::bytes::is_clear;
use tables::limits::{Limits, Texts, roomy};

// Whether bytes of the limits' size are the regions of a store, and zeros behind them.
fn is_placed(store: &[u8], limits: Limits) -> bool
    requires { Roomy limits × (length store.now ≡ limits.size) }
    ensures { (result ≡ true) ↔ IsPlaced limits store.now }
{
    if !regions_ok(Form::Placed, store, limits) {
        return false;
    }
    let spare = regions_end(Form::Placed, limits);
    is_clear(&store[spare..])
}

// Whether bytes of the limits' size are those of tables that the rules allow, in the form that the limits name.
fn is_laid(store: &[u8], limits: Limits) -> bool
    requires { Roomy limits × (length store.now ≡ limits.size) }
    ensures { (result ≡ true) ↔ IsStore limits store.now }
{
    let texts = limits.texts;
    match texts {
        Texts::Placed => is_placed(store, limits),
        Texts::Shared(area) => is_shared(store, limits, area),
    }
}

// Whether the bytes are those of tables and a kept hash that the rules allow, in a store with room for them.
pub fn is_store(store: &[u8], limits: Limits) -> bool
    ensures { (result ≡ true) ↔ StoreOf limits store.now }
{
    if store.len() != limits.size {
        return false;
    }
    if !roomy(limits) {
        return false;
    }
    is_laid(store, limits)
}
