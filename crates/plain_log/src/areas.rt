// The frame of an area: how long the requests in it are, and what starting one does.
ghost use Rattle.lists.specs.Ladder.{Answers};
ghost use Rattle.plain_log.specs.Area.{area_starting, area_begins};
ghost use Rattle.plain_log.specs.Frames.{NumberAt, UsedIs};

use slots::bytes::wipe;

// How many bytes an area has.
pub const AREA: usize = 32768;

// How many of them say how long the requests are.
pub const USED: usize = 4;

#[derive(Clone, Copy)]
pub enum Started {
    Fresh,
    WrongSize,
}

// Any bytes of an area's size become a fresh one; others stay.
pub fn start(area: &mut [u8]) -> Started
    ensures { Answers (area_starting area.old) (area_begins result area.new) }
{
    if area.len() != AREA {
        return Started::WrongSize;
    }
    wipe(area);
    Started::Fresh
}

// The number of two bytes at a place, high byte first; 0 where they are not there.
pub(crate) fn number_at(area: &[u8], at: usize) -> usize
    ensures { NumberAt area.now at result }
{
    if area.len() < 2 || area.len() - 2 < at {
        return 0;
    }
    area[at] as usize * 256 + area[at + 1] as usize
}

// How long the requests of an area are; none where they cannot be those of one.
pub(crate) fn used_of(area: &[u8]) -> Option<usize>
    ensures { UsedIs area.now result }
{
    if area.len() != AREA {
        return None;
    }
    if number_at(area, 0) != 0 {
        return None;
    }
    Some(number_at(area, 2))
}
