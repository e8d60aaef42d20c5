// Proposes a request that makes one store's tables another's, where those of a single export part differ.
ghost use Rattle.std.specs.Prelude.{length, ◌≡◌, ◌≤◌};
ghost use Rattle.lists.specs.Ladder.{Answers};
ghost use Rattle.working.specs.Seen.{Lends};
ghost use Rattle.export.specs.Exportable.{Exportable};
ghost use Rattle.updating.specs.Updating.{proposing, Compared, noted, AllCompared};

use super::answers::Proposal;
use export::exporting::export_in;
use export::parts::PARTS;
use slots::bytes::alike;
use store_check::checks::is_store;
use tables::limits::Limits;

// Which parts differ: none so far, the one with this number, or several: three cases, which an Option would hide in a second Option.
#[derive(Clone, Copy)]
pub(crate) enum Differing {
    Nothing,
    One(u32),
    Several,
}

// Whether a part of two stores is exported alike. Exports are compared, so that nothing here knows how a store is laid out.
fn same_part(
    part: u32,
    first: &[u8],
    second: &[u8],
    limits: Limits,
    a: &mut [u8],
    b: &mut [u8],
    work: &mut [u8],
) -> bool
    ensures { Compared limits part first.now second.now a.old b.old work.old result }
{
    let one = export_in(part, first, a, limits, work);
    let Ok(m) = one else {
        return false;
    };
    let other = export_in(part, second, b, limits, work);
    let Ok(n) = other else {
        return false;
    };
    alike(&a[0..m], &b[0..n])
}

// What is known with one part more.
fn note(found: Differing, part: u32, same: bool) -> Differing
    ensures { result ≡ noted found part same }
{
    if same {
        return found;
    }
    match found {
        Differing::Nothing => Differing::One(part),
        Differing::One(_) => Differing::Several,
        Differing::Several => Differing::Several,
    }
}

// Which parts of two stores differ.
fn compare_parts(
    first: &[u8],
    second: &[u8],
    limits: Limits,
    a: &mut [u8],
    b: &mut [u8],
    work: &mut [u8],
) -> Differing
    ensures { AllCompared limits first.now second.now a.old b.old work.old result }
{
    let mut found = Differing::Nothing;
    for done in 0..PARTS {
        let alike = same_part(done + 1, first, second, limits, a, b, work);
        found = note(found, done + 1, alike);
    }
    found
}

// The second store's part, where it alone differs from the first's, for sets with these limits; two buffers of a message's size and bytes to work in are lent.
pub fn propose_in(
    first: &[u8],
    second: &[u8],
    buffer: &mut [u8],
    limits: Limits,
    a: &mut [u8],
    b: &mut [u8],
    work: &mut [u8],
) -> Proposal
    ensures { Exportable limits → limits.message ≤ length a.old → limits.message ≤ length b.old → Lends limits work.old → Answers (proposing limits first.now second.now buffer.old) (record { answer = result; buffer = buffer.new }) }
{
    if !is_store(first, limits) {
        return Proposal::FirstNotAStore;
    }
    if !is_store(second, limits) {
        return Proposal::SecondNotAStore;
    }
    if buffer.len() < limits.message {
        return Proposal::Buffer;
    }
    let found = compare_parts(first, second, limits, a, b, work);
    let Differing::One(part) = found else {
        return Proposal::NoSinglePart;
    };
    let written = export_in(part, second, buffer, limits, work);
    let Ok(length) = written else {
        return Proposal::NoSinglePart;
    };
    Proposal::Written(length)
}
