// Areas and messages.
ghost use Rattle.packing_desk.specs.PackedDesk.{AreaStarts, PlainTakes};

use packing_desk::answers::{pack_plain, start_number};
use plain::desk::{start, take};

// 0: the bytes are a fresh area. 11: they are not 32,768, and stay.
#[unsafe(no_mangle)]
pub extern "C" fn otap_plain_start(area: &mut [u8]) -> u32
    ensures { AreaStarts area.old area.new result }
{
    let did = start(area);
    start_number(did)
}

// Number, failed ID, send, reboot and reply length, as the hand-held's; a request that is taken is kept in the area, or 18: it passes the area's end.
#[unsafe(no_mangle)]
pub extern "C" fn otap_plain_take(message: &[u8], area: &mut [u8], reply: &mut [u8]) -> u64
    ensures { PlainTakes message.now area.old reply.old area.new reply.new result }
{
    let answer = take(message, area, reply);
    pack_plain(answer)
}
