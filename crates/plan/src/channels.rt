// Channels and their frequencies, in units of 100 Hz: conversions both ways, for every u32.
ghost use Rattle.std.specs.Prelude.{◌≤◌};
ghost use Rattle.plan.specs.Frequencies.{Transmits, Receives, Steps};
ghost use Rattle.plan.specs.Answers.{Answered, Back, answer, frequency, channel};

// A frequency in those units.
#[derive(Clone, Copy, PartialEq, Eq)]
pub struct Frequency(pub u32);

// The number of a channel.
#[derive(Clone, Copy, PartialEq, Eq)]
pub struct ChannelNumber(pub u32);

// The transmit frequency of a channel of the plan.
fn transmit_value(n: u32) -> u32
    requires { (1 ≤ n) × (n ≤ 640) }
    ensures { Transmits n result }
{
    match n {
        ..=240 => 3_580_125 + 125 * (n - 1),
        _ => 3_510_125 + 125 * (n - 241),
    }
}

pub fn transmit(n: u32) -> Option<Frequency>
    ensures { Answered Transmits 22 n (answer (frequency result)) }
{
    match n {
        1..=640 => Some(Frequency(transmit_value(n))),
        _ => None,
    }
}

pub fn receive(n: u32) -> Option<Frequency>
    ensures { Answered Receives 22 n (answer (frequency result)) }
{
    match n {
        1..=240 => Some(Frequency(transmit_value(n))),
        241..=640 => Some(Frequency(transmit_value(n) + 100_000)),
        _ => None,
    }
}

// The channel that stands so far above its band's channel 0, where 125 divides it.
fn channel_above(rest: u32) -> Option<ChannelNumber>
    ensures { Answered Steps 22 rest (answer (channel result)) }
{
    if rest % 125 == 0 {
        Some(ChannelNumber(rest / 125))
    } else {
        None
    }
}

pub fn channel_of_transmit(f: u32) -> Option<ChannelNumber>
    ensures { Answered (Back Transmits) 22 f (answer (channel result)) }
{
    match f {
        3_510_125..=3_560_000 => channel_above(f - 3_480_000),
        3_580_125..=3_610_000 => channel_above(f - 3_580_000),
        _ => None,
    }
}
