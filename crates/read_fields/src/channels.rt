// Scan channels at a place of a message: 12 bits each, two in three bytes.
ghost use Rattle.std.specs.Prelude.{◌≡◌, List, ℕ, ◌<◌, length, get_or};
ghost use Rattle.read_fields.specs.Entries.{ChannelsAt, OutOfRange, channel_list};
ghost use Rattle.read_fields.specs.Places.{FieldsAt};

use super::bytes::{number, remaining};

// As many channels as were counted, all in range, and 1111 after an odd last one.
pub fn walk_channels(m: &[u8], at: usize, count: usize) -> Option<usize>
    ensures { ChannelsAt m.now at count result }
{
    let mut p = at;
    for _ in 0..count / 2 {
        if remaining(m, p) < 3 {
            return None;
        }
        let pair = number(m, p, 3);
        if out_of_range(pair / 4096) || out_of_range(pair % 4096) {
            return None;
        }
        p += 3;
    }
    if count % 2 == 0 {
        return Some(p);
    }
    if remaining(m, p) < 2 {
        return None;
    }
    let one = number(m, p, 2);
    if one % 16 != 15 {
        return None;
    }
    if out_of_range(one / 16) {
        return None;
    }
    Some(p + 2)
}

fn out_of_range(n: u64) -> bool
    ensures { OutOfRange n result }
{
    !(241..=640).contains(&n)
}

// The channel in place i of a list that stands from start.
pub fn channel_at(m: &[u8], start: usize, i: usize) -> u16
    ensures { (es : List ℕ) (next : ℕ) → FieldsAt (channel_list es) m.now start next → i < length es → result ≡ get_or es i 0 }
{
    let pairs = i / 2;
    if remaining(m, start) / 3 < pairs {
        return 0;
    }
    let p = start + pairs * 3;
    if remaining(m, p) < 2 {
        return 0;
    }
    if i % 2 == 0 {
        return (number(m, p, 2) / 16 % 4096) as u16;
    }
    if remaining(m, p) < 3 {
        return 0;
    }
    (number(m, p + 1, 2) % 4096) as u16
}
