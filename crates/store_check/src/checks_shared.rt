// Whether bytes are a store whose texts share one area.
ghost use Rattle.std.specs.Prelude.{◌≡◌, true, ◌↔◌, length};
ghost use Rattle.shared_texts.specs.Shared.{SharedRoomy, IsShared};
ghost use Rattle.tables.specs.Texts.{AreaFilled};
ghost use Rattle.store_check.specs.Checks.{units?};

use super::checks_entries::units_shown;
use super::checks_regions::{regions_end, regions_ok};
use super::forms::Form;
use slots::bytes::is_clear;
use tables::limits::Limits;
use working::areas::units_in;

// The bytes that are looked at at a time.
const BLOCK: usize = 32;

// Whether no unit of many is 0.
fn area_shown(s: &[u8]) -> bool
    ensures { result ≡ units? s.now }
{
    let blocks = s.chunks_exact(BLOCK);
    let rest = blocks.remainder();
    for block in blocks {
        if !units_shown(block) {
            return false;
        }
    }
    units_shown(rest)
}

// Whether so many units stand in the area, none of them 0, and zeros behind them; a last byte alone is no unit.
fn area_ok(area: &[u8], units: usize) -> bool
    ensures { (result ≡ true) ↔ AreaFilled units area.now }
{
    if area.len() / 2 < units {
        return false;
    }
    let rest = units * 2;
    if !area_shown(&area[0..rest]) {
        return false;
    }
    is_clear(&area[rest..])
}

// Whether bytes of the limits' size are heads, as many units in the area as they count, none of them 0, and zeros behind.
pub(crate) fn is_shared(store: &[u8], limits: Limits, area: usize) -> bool
    requires { SharedRoomy limits area × (length store.now ≡ limits.size) }
    ensures { (result ≡ true) ↔ IsShared limits area store.now }
{
    if !regions_ok(Form::Shared, store, limits) {
        return false;
    }
    let texts = regions_end(Form::Shared, limits);
    let spare = texts + area;
    let units = units_in(store, limits);
    if !area_ok(&store[texts..spare], units) {
        return false;
    }
    is_clear(&store[spare..])
}
