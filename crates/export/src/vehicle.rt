// The call of the vehicle, whose store is read as it is.
// Kept beside handheld.rt, since the README names both: each only calls export_in, which is generic, with a working copy of its own fixed size.
ghost use Rattle.lists.specs.Ladder.{Answers};
ghost use Rattle.tables.specs.Limits.{vehicle};
ghost use Rattle.export.specs.Exporting.{told, exporting};

use super::exporting::export_in;
use super::parts::NoExport;
use tables::limits::VEHICLE;

// The length of the request that exports a part of a store, or why there is none, and the buffer stays.
pub fn export(part: u32, store: &[u8], buffer: &mut [u8]) -> Result<usize, NoExport>
    ensures { Answers (exporting vehicle part store.now buffer.old) (record { answer = told result; buffer = buffer.new }) }
{
    let mut none = [0u8; 0];
    export_in(part, store, buffer, VEHICLE, &mut none)
}
