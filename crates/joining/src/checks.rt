// One of the requests, checked as taking checks it where every setting has room.
ghost use Rattle.joining.specs.Checking.{IsLast, StepIs, SettingsAre, OpensElse, RequestIs};

use super::answers::Fault;
use read_carrier::carrier::{Message, open_message, read_message};
use read_setting::reader::{SettingFault, read_setting};
use settings::settings::Setting;
use writing::Coding;

// What the head of a request says of its settings.
#[derive(Clone, Copy)]
pub(crate) struct Head {
    pub count: u8,
    pub coding: Coding,
}

// The place after a setting and whether it is an FF item, or its fault: its type, or anything else.
#[derive(Clone, Copy)]
pub(crate) enum Step {
    Next(usize, bool),
    Unknown,
    Field,
}

// Whether a setting is an FF item.
fn is_last(setting: Setting) -> bool
    ensures { IsLast setting result }
{
    match setting {
        Setting::Last(_, _) => true,
        _ => false,
    }
}

// The setting at a place, where so many settings are still counted after it and texts are coded so.
fn check_setting(m: &[u8], at: usize, left: usize, coding: Coding) -> Step
    ensures { StepIs coding left m.now at result }
{
    match read_setting(m, at, left, coding) {
        Ok((setting, next)) => Step::Next(next, is_last(setting)),
        Err(SettingFault::Missing) => Step::Field,
        Err(SettingFault::Unknown) => Step::Unknown,
        Err(SettingFault::Field) => Step::Field,
    }
}

// So many settings from a place to the message's end, none of them an FF item.
fn check_settings(m: &[u8], at: usize, head: Head) -> Result<Head, Fault>
    ensures { SettingsAre m.now at head result }
{
    let count = head.count;
    let coding = head.coding;
    let mut p = at;
    let mut last = false;
    for taken in 0..count {
        let left = (count - taken - 1) as usize;
        let step = check_setting(m, p, left, coding);
        match step {
            Step::Next(next, is) => {
                p = next;
                last = is;
            }
            Step::Unknown => return Err(Fault::Unknown(taken + 1)),
            Step::Field => return Err(Fault::Field(taken + 1)),
        }
    }
    if p < m.len() {
        return Err(Fault::LeftOver);
    }
    if last {
        return Err(Fault::LastItem(count));
    }
    Ok(head)
}

// Whether a message opens with another type than a request's, whatever its version.
fn is_other(m: &[u8], most: usize) -> bool
    ensures { OpensElse most m.now result }
{
    match open_message(m, most) {
        Ok(opened) => opened.kind != 0,
        Err(_) => false,
    }
}

// A request of at most so many bytes that may be joined, or what is wrong with it.
pub(crate) fn check_request(m: &[u8], most: usize) -> Result<Head, Fault>
    ensures { RequestIs most m.now result }
{
    if is_other(m, most) {
        return Err(Fault::OtherType);
    }
    let message = read_message(m, most);
    match message {
        Message::Size => Err(Fault::Size),
        Message::Carrier => Err(Fault::Carrier),
        Message::Type => Err(Fault::OtherType),
        Message::Version => Err(Fault::Version),
        Message::NoRequest => Err(Fault::NoRequest),
        Message::NoQuery => Err(Fault::OtherType),
        Message::Query(_) => Err(Fault::OtherType),
        Message::Request(count, at, coding) => {
            let head = Head { count, coding };
            check_settings(m, at, head)
        }
    }
}
