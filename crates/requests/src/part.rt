// Requests whose settings touch one table that has texts or none: they are run on a working copy of that part of the tables.
ghost use Rattle.std.specs.Prelude.{◌≡◌, true, ℕ, ◌-◌, drop};
ghost use Rattle.writing.specs.Writing.{type_byte};
ghost use Rattle.tables.specs.declared.limits.Texts.TheVariants.{Shared};
ghost use Rattle.working.specs.Copies.{Sparing};
ghost use Rattle.working.specs.Parts.{fixed?, copied?};
ghost use Rattle.requests.specs.Parts.{OnlyOf, with_area, CopyIs, PartFrom, CopyFrom};

use super::run::{Fault, Request, take_settings_from};
use super::trying::kind_of;
use read_setting::reader::read_setting;
use tables::limits::{Limits, Texts};
use tables::places::{CHANNEL_SLOT, CHANNELS, COUNT, COUNTED, LINE_SLOT, ORDERED};
use working::copies::Copy;
use writing::{Coding, Kind, LastFlags};

// The kinds of a longer request are not looked at first: reading many settings twice costs what loading fewer tables saves.
const FEW: u8 = 8;

// Whether the table of a kind has a fixed size and stands before all texts.
fn is_fixed(kind: Kind) -> bool
    ensures { result ≡ fixed? kind }
{
    matches!(kind, Kind::Key | Kind::Home | Kind::System | Kind::Last)
}

// The type byte of a kind, by which two are told apart.
fn type_of(kind: Kind) -> u8
    ensures { result ≡ type_byte kind }
{
    match kind {
        Kind::GroupContacts => 0xC8,
        Kind::IndividualContacts => 0xC9,
        Kind::Lines => 0xCA,
        Kind::Key => 0xCB,
        Kind::QuickTexts => 0xCC,
        Kind::Home => 0xCD,
        Kind::Channels => 0xCE,
        Kind::System => 0xCF,
        Kind::StatusTexts => 0xD0,
        Kind::Group => 0xD1,
        Kind::Individual => 0xD2,
        Kind::LineSlot => 0xD3,
        Kind::Last => 0xFF,
    }
}

// Whether a copy of the part of one kind has the table of another.
fn is_copied(kind: Kind, other: Kind) -> bool
    ensures { result ≡ true → copied? kind other ≡ true }
{
    is_fixed(other) || type_of(kind) == type_of(other)
}

// Whether a request's settings, as far as they are good, are of kinds that a copy of the part of this kind has.
fn only_of(m: &[u8], request: Request, kind: Kind) -> bool
    ensures { result ≡ true → OnlyOf request.coding kind request.count (drop request.at m.now) }
{
    let mut p = request.at;
    for seen in 0..request.count {
        let left = (request.count - seen - 1) as usize;
        let Ok((setting, next)) = read_setting(m, p, left, request.coding) else {
            return true;
        };
        if !is_copied(kind, kind_of(setting)) {
            return false;
        }
        p = next;
    }
    true
}

// The kind of the setting at a place, or FF's where none is read there.
fn kind_at(m: &[u8], at: usize, left: usize, coding: Coding) -> Kind {
    match read_setting(m, at, left, coding) {
        Ok((setting, _)) => kind_of(setting),
        Err(_) => Kind::Last,
    }
}

// Whether texts share an area, and the bytes of a working copy that no table uses have room for as many.
fn has_spare(limits: Limits) -> bool
    ensures { result ≡ true → Sparing limits }
{
    if COUNTED < limits.channels {
        return false;
    }
    if ORDERED < limits.lines {
        return false;
    }
    let channels = COUNT + limits.channels * CHANNEL_SLOT;
    let lines = COUNT + limits.lines * LINE_SLOT + limits.lines;
    let used = CHANNELS + (channels + lines);
    if limits.size < used {
        return false;
    }
    let spare = limits.size - used;
    match limits.texts {
        Texts::Placed => false,
        Texts::Shared(area) => area <= spare,
    }
}

// Which tables the working copy for a request has to have.
pub fn copy_for(m: &[u8], request: Request, limits: Limits) -> Copy
    ensures { CopyIs request.coding limits request.count m.now request.at result }
{
    if FEW < request.count {
        return Copy::Whole;
    }
    if !has_spare(limits) {
        return Copy::Whole;
    }
    let left = (request.count as usize).saturating_sub(1);
    let kind = kind_at(m, request.at, left, request.coding);
    if !only_of(m, request, kind) {
        return Copy::Whole;
    }
    Copy::Part(kind)
}

// The limits of part of the tables: its area is what the texts of the others leave.
fn limits_beside(limits: Limits, others: usize) -> Limits
    ensures { (a : ℕ) → limits.texts ≡ Shared a → result ≡ with_area limits (a - others) }
{
    match limits.texts {
        Texts::Placed => limits,
        Texts::Shared(area) => Limits {
            texts: Texts::Shared(area.saturating_sub(others)),
            ..limits
        },
    }
}

// A request's settings on a copy of part of the tables, where the texts of all take held bytes and those of the kind's table own.
fn take_part_from(
    work: &mut [u8],
    limits: Limits,
    m: &[u8],
    request: Request,
    held: usize,
    own: usize,
    kind: Kind,
) -> Result<LastFlags, Fault>
    ensures { PartFrom request.coding limits kind request.count m.now request.at held own work.old work.new result }
{
    let beside = limits_beside(limits, held.saturating_sub(own));
    take_settings_from(work, beside, m, request, own)
}

// The same on a copy of all tables or of part of them.
pub fn take_copy_from(
    work: &mut [u8],
    limits: Limits,
    m: &[u8],
    request: Request,
    held: usize,
    own: usize,
    copy: Copy,
) -> Result<LastFlags, Fault>
    ensures { CopyFrom request.coding limits copy request.count m.now request.at held own work.old work.new result }
{
    match copy {
        Copy::Whole => take_settings_from(work, limits, m, request, held),
        Copy::Part(kind) => take_part_from(work, limits, m, request, held, own, kind),
    }
}
