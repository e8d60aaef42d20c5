// Dialled numbers, addresses and channels: a number and a value.
ghost use Rattle.plan.specs.Answers.{Back};
ghost use Rattle.plan.specs.Numbers.{Individual, Group};
ghost use Rattle.plan.specs.Frequencies.{Transmits, Receives};
ghost use Rattle.packing.specs.Packing.{Converts};

use packing::conversions::{NO_CHANNEL, OUTSIDE_KIND, OUTSIDE_PLAN, pack_value};
use plan::channels::{channel_of_transmit, receive, transmit};
use plan::numbers::{
    GroupAddress, IndividualAddress, dialled_of_group, dialled_of_individual, group_of_dialled,
    individual_of_dialled,
};

#[unsafe(no_mangle)]
pub extern "C" fn otap_individual_of_dialled(number: u32) -> u64
    ensures { Converts Individual 20 number result }
{
    pack_value(individual_of_dialled(number).map(|a| a.0), OUTSIDE_PLAN)
}

#[unsafe(no_mangle)]
pub extern "C" fn otap_group_of_dialled(number: u32) -> u64
    ensures { Converts Group 20 number result }
{
    pack_value(group_of_dialled(number).map(|a| a.0), OUTSIDE_PLAN)
}

#[unsafe(no_mangle)]
pub extern "C" fn otap_dialled_of_individual(address: u32) -> u64
    ensures { Converts (Back Individual) 21 address result }
{
    pack_value(
        dialled_of_individual(IndividualAddress(address)).map(|d| d.0),
        OUTSIDE_KIND,
    )
}

#[unsafe(no_mangle)]
pub extern "C" fn otap_dialled_of_group(address: u32) -> u64
    ensures { Converts (Back Group) 21 address result }
{
    pack_value(
        dialled_of_group(GroupAddress(address)).map(|d| d.0),
        OUTSIDE_KIND,
    )
}

#[unsafe(no_mangle)]
pub extern "C" fn otap_transmit(number: u32) -> u64
    ensures { Converts Transmits 22 number result }
{
    pack_value(transmit(number).map(|f| f.0), NO_CHANNEL)
}

#[unsafe(no_mangle)]
pub extern "C" fn otap_channel_of_transmit(value: u32) -> u64
    ensures { Converts (Back Transmits) 22 value result }
{
    pack_value(channel_of_transmit(value).map(|n| n.0), NO_CHANNEL)
}

#[unsafe(no_mangle)]
pub extern "C" fn otap_receive(number: u32) -> u64
    ensures { Converts Receives 22 number result }
{
    pack_value(receive(number).map(|f| f.0), NO_CHANNEL)
}
