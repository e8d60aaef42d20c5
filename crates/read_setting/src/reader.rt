// The setting at a place of a message: type byte, DataLength, fields.
ghost use Rattle.settings.specs.TypeTable.{BoundsAre};
ghost use Rattle.settings.specs.Meant.{BodyAt};
ghost use Rattle.read_setting.specs.SettingAt.{SettingAt};
ghost use Rattle.writing.specs.declared.Kind.{Kind};

use read_bodies::contact_bodies::{read_group_contacts, read_individual_contacts};
use read_bodies::fixed_bodies::{read_home, read_key, read_last, read_system};
use read_bodies::list_bodies::{read_channels, read_lines, read_quick_texts, read_status_texts};
use read_bodies::slot_bodies::{read_group, read_individual, read_line_slot};
use read_fields::bytes::{number, remaining};
use settings::settings::Setting;
use settings::type_table::{Bounds, bounds_of};
use writing::Coding;

// Why no setting is taken: no type byte (4); a type not among the thirteen (3); a bad field or length (4).
#[derive(Clone, Copy)]
pub enum SettingFault {
    Missing,
    Unknown,
    Field,
}

// The fields after DataLength, by the type of the row.
fn read_body(
    m: &[u8],
    p: usize,
    left: usize,
    row: Bounds,
    coding: Coding,
) -> Option<(Setting, usize)>
    ensures { (k : Kind) → BoundsAre coding k row → BodyAt coding k left m.now p result }
{
    let operations = row.operations;
    match row.type_byte {
        0xC8 => read_group_contacts(m, p, operations, coding),
        0xC9 => read_individual_contacts(m, p, operations, coding),
        0xCA => read_lines(m, p, operations, coding),
        0xCB => read_key(m, p),
        0xCC => read_quick_texts(m, p, operations, coding),
        0xCD => read_home(m, p),
        0xCE => read_channels(m, p, operations, coding),
        0xCF => read_system(m, p),
        0xD0 => read_status_texts(m, p, operations, coding),
        0xD1 => read_group(m, p, operations, coding),
        0xD2 => read_individual(m, p, operations, coding),
        0xD3 => read_line_slot(m, p, operations, coding),
        0xFF => read_last(m, p, left),
        _ => None,
    }
}

// The setting at a place and the place after it, where so many settings are still counted after it.
pub fn read_setting(
    m: &[u8],
    at: usize,
    left: usize,
    coding: Coding,
) -> Result<(Setting, usize), SettingFault>
    ensures { SettingAt coding left m.now at result }
{
    if remaining(m, at) < 1 {
        return Err(SettingFault::Missing);
    }
    let Some(row) = bounds_of(m[at], coding) else {
        return Err(SettingFault::Unknown);
    };
    if remaining(m, at) < 3 {
        return Err(SettingFault::Field);
    }
    let stated = number(m, at + 1, 2);
    if stated < row.least as u64 {
        return Err(SettingFault::Field);
    }
    if (row.most as u64) < stated {
        return Err(SettingFault::Field);
    }
    let Some((setting, next)) = read_body(m, at + 3, left, row, coding) else {
        return Err(SettingFault::Field);
    };
    let taken = next - at - 1;
    if stated != taken as u64 {
        return Err(SettingFault::Field);
    }
    Ok((setting, next))
}
