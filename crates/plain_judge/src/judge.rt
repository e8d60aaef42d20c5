// The settings of a request, read and judged in turn after the requests of a log.
ghost use Rattle.std.specs.Prelude.{◌<◌};
ghost use Rattle.plain_judge.specs.Judging.{HashOf, StepIs, RunIs};

use super::trying::try_setting;
use plain_weigh::weighing::Before;
use read_deeds::cursors::at_settings;
use read_fields::hashes::HashPlace;
use read_setting::reader::{SettingFault, read_setting};
use requests::run::{Fault, Request, flags_of};
use settings::settings::Setting;
use writing::{CfgResult, LastFlags};

// FF's bits and where its hash stands, no and no and a hash of code 0 for another setting.
#[derive(Clone, Copy)]
pub struct Item {
    pub flags: LastFlags,
    pub hash: HashPlace,
}

// A setting that was taken: the place after it, what it says as the last, and how many deeds of the request were read.
#[derive(Clone, Copy)]
pub(crate) struct Step {
    pub next: usize,
    pub item: Item,
    pub deeds: usize,
}

const NO_ITEM: Item = Item {
    flags: LastFlags {
        reboot: false,
        reply: false,
    },
    hash: HashPlace { code: 0, start: 0 },
};

// Where FF's hash stands.
fn hash_of(setting: Setting) -> HashPlace
    ensures { HashOf setting result }
{
    match setting {
        Setting::Last(_, place) => place,
        _ => HashPlace { code: 0, start: 0 },
    }
}

// The setting at a place, after so many that were taken, or its fault.
fn judge_setting(
    log: &[u8],
    logged: usize,
    m: &[u8],
    request: Request,
    at: usize,
    taken: u8,
    passed: usize,
    weights: &mut [usize],
) -> Result<Step, CfgResult>
    ensures { StepIs log.now logged m.now request at taken passed weights.old weights.new result }
{
    if request.count <= taken {
        return Err(CfgResult::BadField);
    }
    let left = (request.count - taken - 1) as usize;
    let coding = request.coding;
    match read_setting(m, at, left, coding) {
        Ok((setting, next)) => {
            let before = Before {
                logged,
                first: at_settings(request.at, taken as usize + 1, coding),
                passed,
            };
            let Some(deeds) = try_setting(log, m, before, setting, weights) else {
                return Err(CfgResult::NoRoom);
            };
            let item = Item {
                flags: flags_of(setting),
                hash: hash_of(setting),
            };
            Ok(Step { next, item, deeds })
        }
        Err(SettingFault::Missing) => Err(CfgResult::BadField),
        Err(SettingFault::Unknown) => Err(CfgResult::UnknownType),
        Err(SettingFault::Field) => Err(CfgResult::BadField),
    }
}

// All settings of a request, to the message's end, after so many deeds of the log: what the last says and how many deeds there are where all were taken.
pub fn judge_settings(
    log: &[u8],
    logged: usize,
    m: &[u8],
    request: Request,
    weights: &mut [usize],
) -> Result<(Item, usize), Fault>
    ensures { RunIs log.now logged m.now request weights.old weights.new result }
{
    let mut p = request.at;
    let mut passed = 0;
    let mut item = NO_ITEM;
    for taken in 0..request.count {
        let step = judge_setting(log, logged, m, request, p, taken, passed, weights);
        match step {
            Ok(step) => {
                p = step.next;
                item = step.item;
                passed = step.deeds;
            }
            Err(result) => {
                return Err(Fault {
                    result,
                    failed: taken + 1,
                });
            }
        }
    }
    if p < m.len() {
        return Err(Fault {
            result: CfgResult::BadField,
            failed: 0,
        });
    }
    Ok((item, passed))
}
