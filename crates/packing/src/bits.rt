// Values that are put in some bits of an answer.
ghost use Rattle.std.specs.Prelude.{◌≤◌, ◌<◌, ◌≡◌};
ghost use Rattle.writing.specs.Writing.{bit};

pub fn bit_of(said: bool) -> u64
    ensures { (result ≡ bit said) × (result ≤ 1) }
{
    said as u64
}

// The lowest 16 bits: no place and no length that a call answers has more.
pub fn low(n: usize) -> u64
    ensures { (result < 65536) × (n < 65536 → result ≡ n) }
{
    (n % 65536) as u64
}
