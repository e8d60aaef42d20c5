// Who is calling.
ghost use Rattle.packing.specs.Packing.{LooksUp};

use callers::lookup::line_of_in;
use packing::caller::pack_caller;
use tables::limits::Limits;

// Number, and the row of the line that has the IDtype (0 PSTN, 1 PABX) and the digits, one a byte, or that none has them.
pub fn packed_line_of(idtype: u32, digits: &[u8], store: &[u8], limits: Limits) -> u64
    ensures { LooksUp limits idtype digits.now store.now result }
{
    let answer = line_of_in(idtype, digits, store, limits);
    pack_caller(answer)
}
