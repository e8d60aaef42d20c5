// The flags of a head, which a list's and a slot's head have alike: n is its first two bytes.
ghost use Rattle.read_bodies.specs.Flags.{LineFlagsAre, GroupFlagsAre, IndividualFlagsAre};

use read_fields::bytes::flag;
use writing::{GroupFlags, IndividualFlags, LineFlags};

pub fn line_flags(n: u64) -> LineFlags
    ensures { LineFlagsAre n result }
{
    LineFlags {
        encryption: flag(n / 8192),
        emergency: flag(n / 4096),
        priority: (n / 1024 % 4) as u8,
        pabx: flag(n / 512),
    }
}

pub fn group_flags(n: u64) -> GroupFlags
    ensures { GroupFlagsAre n result }
{
    GroupFlags {
        attribute: (n / 4096 % 4) as u8,
        broadcast: flag(n / 2048),
        encryption: flag(n / 1024),
        ovcm: flag(n / 512),
        emergency: flag(n / 256),
        priority: (n / 64 % 4) as u8,
    }
}

pub fn individual_flags(n: u64) -> IndividualFlags
    ensures { IndividualFlagsAre n result }
{
    IndividualFlags {
        encryption: flag(n / 8192),
        emergency: flag(n / 4096),
        priority: (n / 1024 % 4) as u8,
    }
}
