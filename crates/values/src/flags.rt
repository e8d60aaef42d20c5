// The flags that a slot begins with, read back from their byte.
ghost use Rattle.values.specs.Entries.{GroupFlagsAre, IndividualFlagsAre, LineFlagsAre};

use writing::{GroupFlags, IndividualFlags, LineFlags};

// A line's; its IDtype has a byte of its own.
pub fn line_flags_of(flags: u8, idtype: u8) -> LineFlags
    ensures { LineFlagsAre flags idtype result }
{
    LineFlags {
        encryption: flags / 8 == 1,
        emergency: flags / 4 % 2 == 1,
        priority: flags % 4,
        pabx: idtype == 1,
    }
}

// A group's.
pub fn group_flags_of(flags: u8) -> GroupFlags
    ensures { GroupFlagsAre flags result }
{
    GroupFlags {
        attribute: flags / 64,
        broadcast: flags / 32 % 2 == 1,
        encryption: flags / 16 % 2 == 1,
        ovcm: flags / 8 % 2 == 1,
        emergency: flags / 4 % 2 == 1,
        priority: flags % 4,
    }
}

// An individual's.
pub fn individual_flags_of(flags: u8) -> IndividualFlags
    ensures { IndividualFlagsAre flags result }
{
    IndividualFlags {
        encryption: flags / 8 == 1,
        emergency: flags / 4 % 2 == 1,
        priority: flags % 4,
    }
}
