// Where the parts of a parameter stand.
ghost use Rattle.std.specs.Prelude.{◌<◌, ◌≡◌};
ghost use Rattle.packing.specs.PackedValues.{WhereFit};
ghost use Rattle.packing_office.specs.PackedReading.{bare, texted, places, places_read, places_fields};

use packing::bits::low;
use read_fields::texts::TextPlace;
use report_reading::items::Item;

// The byte behind it, its text and how many units that has, its number or hash value, and how many digits or which HashCode; 0 of what it has none of.
#[derive(Clone, Copy)]
pub struct Places {
    pub next: usize,
    pub text: usize,
    pub units: usize,
    pub number: usize,
    pub size: usize,
}

fn bare(next: usize, number: usize, size: usize) -> Places
    ensures { result ≡ bare next number size }
{
    Places {
        next,
        text: 0,
        units: 0,
        number,
        size,
    }
}

fn texted(next: usize, t: TextPlace, number: usize, size: usize) -> Places
    ensures { result ≡ texted next t number size }
{
    Places {
        next,
        text: t.start,
        units: t.units,
        number,
        size,
    }
}

fn places_of(item: Item, next: usize) -> Places
    ensures { result ≡ places item next }
{
    match item {
        Item::Group(_, _, _, t) => texted(next, t, 0, 0),
        Item::Individual(_, _, _, t) => texted(next, t, 0, 0),
        Item::Line(_, _, n, t) => texted(next, t, n.start, n.digits),
        Item::Key(_, _) => bare(next, 0, 0),
        Item::Quick(_, t) => texted(next, t, 0, 0),
        Item::Home(_) => bare(next, 0, 0),
        Item::Channel(_, _) => bare(next, 0, 0),
        Item::System(_) => bare(next, 0, 0),
        Item::Status(_, _, t) => texted(next, t, 0, 0),
        Item::Hash(p) => bare(next, p.start, p.code as usize),
        Item::NoHash => bare(next, 0, 0),
        Item::Unknown(_) => bare(next, 0, 0),
    }
}

// The lowest byte: no number of digits and no code that is read has more.
fn low_byte(n: usize) -> u64
    ensures { (result < 256) × (n < 256 → result ≡ n) }
{
    (n % 256) as u64
}

// Bits 0 to 15 the byte behind it, 16 to 31 text, 32 to 39 its bytes, 40 to 55 number or hash value, 56 to 63 digits or HashCode.
fn pack_places_of(p: Places) -> u64
    ensures { WhereFit (places_fields p) result }
{
    low(p.next)
        + low(p.text) * 65536
        + low_byte(p.units) % 128 * 8589934592
        + low(p.number) * 1099511627776
        + low_byte(p.size) * 72057594037927936
}

pub fn pack_places(answer: Option<(Item, usize)>) -> u64
    ensures { WhereFit (places_fields (places_read answer)) result }
{
    match answer {
        Some((item, next)) => {
            if next < 65536 {
                let p = places_of(item, next);
                pack_places_of(p)
            } else {
                0
            }
        }
        None => 0,
    }
}
