// The head of a parameter, which is its fields of fixed width behind the type byte, as one number; and the flags in it.
ghost use Rattle.std.specs.Prelude.{◌≤◌};
ghost use Rattle.report_reading.specs.Readers.{HeadIs, GroupFlagsAre, IndividualFlagsAre, LineFlagsAre};

use read_fields::bytes::{flag, number, remaining};
use writing::{GroupFlags, IndividualFlags, LineFlags};

// A head of so many bytes below the limit, which leaves no bit of result and reason set.
pub(crate) fn read_head(m: &[u8], p: usize, size: usize, limit: u64) -> Option<u64>
    requires { (1 ≤ size) × (size ≤ 8) }
    ensures { HeadIs m.now p size limit result }
{
    if remaining(m, p) < size {
        return None;
    }
    let n = number(m, p, size);
    if limit <= n {
        return None;
    }
    Some(n)
}

pub(crate) fn group_flags(n: u64) -> GroupFlags
    ensures { GroupFlagsAre n result }
{
    GroupFlags {
        attribute: (n / 1024 % 4) as u8,
        broadcast: flag(n / 512),
        encryption: flag(n / 256),
        ovcm: flag(n / 128),
        emergency: flag(n / 64),
        priority: (n / 16 % 4) as u8,
    }
}

pub(crate) fn individual_flags(n: u64) -> IndividualFlags
    ensures { IndividualFlagsAre n result }
{
    IndividualFlags {
        encryption: flag(n / 8),
        emergency: flag(n / 4),
        priority: (n % 4) as u8,
    }
}

pub(crate) fn line_flags(n: u64) -> LineFlags
    ensures { LineFlagsAre n result }
{
    LineFlags {
        encryption: flag(n / 16384),
        emergency: flag(n / 8192),
        priority: (n / 2048 % 4) as u8,
        pabx: flag(n / 32768),
    }
}
