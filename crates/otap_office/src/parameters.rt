// The parameters of a report message, of either set.
ghost use Rattle.packing_office.specs.PackedReading.{AnswersParameter, AnswersPlaces};

use packing_office::parameter::pack_parameter;
use packing_office::places::pack_places;
use report_reading::types::read_item;

// What the parameter at a place says; 0 where none in range stands there.
#[unsafe(no_mangle)]
pub extern "C" fn otap_report_entry(message: &[u8], at: u32) -> u64
    ensures { AnswersParameter message.now at result }
{
    let answer = read_item(message, at as usize);
    pack_parameter(answer)
}

// Where the parts of the parameter at a place stand, and the place behind it; 0 where none in range stands there.
#[unsafe(no_mangle)]
pub extern "C" fn otap_report_places(message: &[u8], at: u32) -> u64
    ensures { AnswersPlaces message.now at result }
{
    let answer = read_item(message, at as usize);
    pack_places(answer)
}
