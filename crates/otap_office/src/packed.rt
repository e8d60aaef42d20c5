// The calls for any message size, their answers packed.
ghost use Rattle.std.specs.Prelude.{◌≤◌};
ghost use Rattle.packing_office.specs.PackedJoin.{AnswersJoin};
ghost use Rattle.packing_office.specs.PackedReading.{AnswersMessage};

use joining::joins::join_in;
use packing_office::join::pack_join;
use packing_office::message::pack_message;
use report_reading::messages::read_report_in;

// Number, total, index and how many parameters a report message has: 12, 13, 14, 1, 4 refuse.
pub(crate) fn packed_message(message: &[u8], most: usize) -> u64
    ensures { AnswersMessage most message.now result }
{
    let answer = read_report_in(message, most);
    pack_message(answer)
}

// Number, failed ID, whether the second request is at fault, and the length of the joined request, which stands at the buffer's start. Refusals leave the buffer.
pub(crate) fn packed_join(first: &[u8], second: &[u8], buffer: &mut [u8], most: usize) -> u64
    ensures { most ≤ 65535 → AnswersJoin most first.now second.now buffer.old buffer.new result }
{
    let answer = join_in(first, second, buffer, most);
    pack_join(answer)
}
