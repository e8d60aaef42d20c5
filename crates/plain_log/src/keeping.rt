// Keeps one request more.
ghost use Rattle.plain_log.specs.Frames.{PutNumber, KeepIs};

use super::areas::{AREA, USED};
use slots::bytes::copy;

// A request would pass the area's end.
#[derive(Clone, Copy)]
pub struct PastEnd;

// Writes a number of two bytes at a place.
fn put_number(area: &mut [u8], at: usize, n: usize)
    ensures { PutNumber area.old at n area.new }
{
    if area.len() < 2 || area.len() - 2 < at {
        return;
    }
    area[at] = (n / 256 % 256) as u8;
    area[at + 1] = (n % 256) as u8;
}

// Puts a request behind those of an area, which are so long, where it does not pass the area's end.
pub fn keep(area: &mut [u8], used: usize, m: &[u8]) -> Result<(), PastEnd>
    ensures { KeepIs area.old used m.now area.new result }
{
    if area.len() != AREA {
        return Err(PastEnd);
    }
    if AREA - USED - 2 < used {
        return Err(PastEnd);
    }
    if AREA - USED - 2 - used < m.len() {
        return Err(PastEnd);
    }
    let at = USED + used;
    let start = at + 2;
    let end = start + m.len();
    put_number(area, at, m.len());
    copy(&mut area[start..end], m);
    put_number(area, 2, used + 2 + m.len());
    Ok(())
}
