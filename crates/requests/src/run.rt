// The settings of a request, read and applied in turn on a working copy of the store.
ghost use Rattle.requests.specs.Running.{FlagsAre, StepIs, RunIs, RunFrom};

use super::trying::{all_bytes, try_setting};
use read_setting::reader::{SettingFault, read_setting};
use settings::settings::Setting;
use tables::limits::Limits;
use writing::{CfgResult, Coding, LastFlags};

// A request's settings: where they start in the message, how many they are, and how their texts are coded.
#[derive(Clone, Copy)]
pub struct Request {
    pub at: usize,
    pub count: u8,
    pub coding: Coding,
}

// After a setting that was taken: the place of the next, FF's bits, and the bytes that all texts take.
#[derive(Clone, Copy)]
pub(crate) struct Taken {
    pub next: usize,
    pub flags: LastFlags,
    pub sum: usize,
}

// Why a request is turned down, and the failed ID: the number of the setting at fault, 0 where it is none of them.
#[derive(Clone, Copy)]
pub struct Fault {
    pub result: CfgResult,
    pub failed: u8,
}

const NO_FLAGS: LastFlags = LastFlags {
    reboot: false,
    reply: false,
};

// FF's bits, no and no for another setting.
pub fn flags_of(setting: Setting) -> LastFlags
    ensures { FlagsAre setting result }
{
    match setting {
        Setting::Last(flags, _) => flags,
        _ => NO_FLAGS,
    }
}

// The setting at a place, where so many settings are still counted after it, texts are coded so, and those held take so many bytes.
fn take_setting(
    work: &mut [u8],
    limits: Limits,
    m: &[u8],
    at: usize,
    left: usize,
    coding: Coding,
    sum: usize,
) -> Result<Taken, CfgResult>
    ensures { StepIs coding limits left m.now at sum work.old work.new result }
{
    match read_setting(m, at, left, coding) {
        Ok((setting, next)) => {
            let flags = flags_of(setting);
            let Some(sum) = try_setting(work, limits, m, setting, sum) else {
                return Err(CfgResult::NoRoom);
            };
            Ok(Taken { next, flags, sum })
        }
        Err(SettingFault::Missing) => Err(CfgResult::BadField),
        Err(SettingFault::Unknown) => Err(CfgResult::UnknownType),
        Err(SettingFault::Field) => Err(CfgResult::BadField),
    }
}

// A request's settings, to the message's end, on a copy whose texts take so many bytes: FF's bits where all were taken, or the first fault.
pub fn take_settings_from(
    work: &mut [u8],
    limits: Limits,
    m: &[u8],
    request: Request,
    held: usize,
) -> Result<LastFlags, Fault>
    ensures { RunFrom request.coding limits request.count m.now request.at held work.old work.new result }
{
    let mut last = Taken {
        next: request.at,
        flags: NO_FLAGS,
        sum: held,
    };
    for taken in 0..request.count {
        let left = (request.count - taken - 1) as usize;
        match take_setting(work, limits, m, last.next, left, request.coding, last.sum) {
            Ok(after) => last = after,
            Err(why) => return Err(Fault {
                result: why,
                failed: taken + 1,
            }),
        }
    }
    if last.next < m.len() {
        return Err(Fault {
            result: CfgResult::BadField,
            failed: 0,
        });
    }
    Ok(last.flags)
}

// The same on any copy, whose texts are counted first.
pub fn take_settings(
    work: &mut [u8],
    limits: Limits,
    m: &[u8],
    request: Request,
) -> Result<LastFlags, Fault>
    ensures { RunIs request.coding limits request.count m.now request.at work.old work.new result }
{
    let held = all_bytes(work, limits);
    take_settings_from(work, limits, m, request, held)
}
