// The call of the handheld, which owns the working copy.
ghost use Rattle.lists.specs.Ladder.{Answers};
ghost use Rattle.tables.specs.Limits.{handheld};
ghost use Rattle.export.specs.Exporting.{told, exporting};

use super::exporting::export_in;
use super::parts::NoExport;
use tables::limits::{HANDHELD, HANDHELD_SIZE};

// The length of the request that exports a part of a store, or why there is none, and the buffer stays.
pub fn export(part: u32, store: &[u8], buffer: &mut [u8]) -> Result<usize, NoExport>
    ensures { Answers (exporting handheld part store.now buffer.old) (record { answer = told result; buffer = buffer.new }) }
{
    let mut work = [0u8; HANDHELD_SIZE];
    export_in(part, store, buffer, HANDHELD, &mut work)
}
