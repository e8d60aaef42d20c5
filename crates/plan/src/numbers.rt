// Dialled numbers and addresses, by kind.
ghost use Rattle.std.specs.Prelude.{◌<◌};
ghost use Rattle.plan.specs.Answers.{Answered, Back, answer, individual, group, dialled as backward};
ghost use Rattle.plan.specs.Numbers.{IndividualShort, GroupShort, Individual, Group};
ghost use Rattle.plan.specs.Inner.{ShortIs, MemberIs, AddressOf, DialledOf};

// The 24 bits of a group's address.
#[derive(Clone, Copy, PartialEq, Eq)]
pub struct GroupAddress(pub u32);

// The 24 bits of an individual's address.
#[derive(Clone, Copy, PartialEq, Eq)]
pub struct IndividualAddress(pub u32);

// The eight digits that are dialled, as one number.
#[derive(Clone, Copy, PartialEq, Eq)]
pub struct DialledNumber(pub u32);

// The short address of a fleet's member, where the plan of individuals has one.
fn individual_short(fleet: u32, member: u32) -> Option<u32>
    ensures { ShortIs IndividualShort fleet member result }
{
    match (fleet, member) {
        (20..=41, 200..=899) => Some((fleet - 20) * 700 + (member - 200) + 1),
        (42..=89, 200..=549) => Some((fleet - 42) * 350 + (member - 200) + 15401),
        _ => None,
    }
}

// Where the plan of groups has one.
fn group_short(fleet: u32, member: u32) -> Option<u32>
    ensures { ShortIs GroupShort fleet member result }
{
    match (fleet, member) {
        (20..=89, 900..=999) => Some((fleet - 20) * 100 + (member - 900) + 1),
        _ => None,
    }
}

// The fleet and the member of a short address, where the plan of individuals has them.
fn individual_member(short: u32) -> Option<(u32, u32)>
    ensures { MemberIs IndividualShort short result }
{
    match short {
        1..=15400 => Some(((short - 1) / 700 + 20, (short - 1) % 700 + 200)),
        15401..=32200 => Some(((short - 15401) / 350 + 42, (short - 15401) % 350 + 200)),
        _ => None,
    }
}

// Where the plan of groups has them.
fn group_member(short: u32) -> Option<(u32, u32)>
    ensures { MemberIs GroupShort short result }
{
    match short {
        1..=7000 => Some(((short - 1) / 100 + 20, (short - 1) % 100 + 900)),
        _ => None,
    }
}

// The address of a short address in an area.
fn area_address(np: u32, short: u32) -> Option<u32>
    requires { short < 32768 }
    ensures { AddressOf np short result }
{
    match np {
        328..=806 => Some((np - 328) * 32_768 + 1_048_576 + short),
        _ => None,
    }
}

// The eight digits of an area's member. 1048576 is 32 times 32768, so area 328 stands at 32.
fn area_dialled(area: u32, fleet: u32, member: u32) -> Option<DialledNumber>
    requires { (fleet < 100) × (member < 1000) }
    ensures { DialledOf area fleet member result }
{
    match area {
        32..=510 => Some(DialledNumber((area + 296) * 100_000 + fleet * 1_000 + member)),
        _ => None,
    }
}

pub fn individual_of_dialled(d: u32) -> Option<IndividualAddress>
    ensures { Answered Individual 20 d (answer (individual result)) }
{
    let short = individual_short(d / 1_000 % 100, d % 1_000)?;
    let address = area_address(d / 100_000, short)?;
    Some(IndividualAddress(address))
}

pub fn group_of_dialled(d: u32) -> Option<GroupAddress>
    ensures { Answered Group 20 d (answer (group result)) }
{
    let short = group_short(d / 1_000 % 100, d % 1_000)?;
    let address = area_address(d / 100_000, short)?;
    Some(GroupAddress(address))
}

pub fn dialled_of_individual(a: IndividualAddress) -> Option<DialledNumber>
    ensures { Answered (Back Individual) 21 a.0 (answer (backward result)) }
{
    let (fleet, member) = individual_member(a.0 % 32_768)?;
    area_dialled(a.0 / 32_768, fleet, member)
}

pub fn dialled_of_group(a: GroupAddress) -> Option<DialledNumber>
    ensures { Answered (Back Group) 21 a.0 (answer (backward result)) }
{
    let (fleet, member) = group_member(a.0 % 32_768)?;
    area_dialled(a.0 / 32_768, fleet, member)
}
