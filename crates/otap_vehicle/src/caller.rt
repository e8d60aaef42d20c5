// Who is calling.
ghost use Rattle.tables.specs.Limits.{vehicle};
ghost use Rattle.packing.specs.Packing.{LooksUp};

use packed_calls::caller::packed_line_of;
use tables::limits::VEHICLE;

// Number, and the row of the line that has the IDtype (0 PSTN, 1 PABX) and the digits, one a byte, or that none has them.
#[unsafe(no_mangle)]
pub extern "C" fn otap_vehicle_line_of(idtype: u32, digits: &[u8], store: &[u8]) -> u64
    ensures { LooksUp vehicle idtype digits.now store.now result }
{
    packed_line_of(idtype, digits, store, VEHICLE)
}
