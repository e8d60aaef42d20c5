// Bytes of a message as numbers.
ghost use Rattle.std.specs.Prelude.{◌≡◌, ◌+◌, ◌-◌, ◌%◌, ◌≤◌, ◌<◌, eqb, length, take, drop};
ghost use Rattle.read_fields.specs.Places.{be};

// How many bytes stand from a place on.
pub fn remaining(m: &[u8], at: usize) -> usize
    ensures { result ≡ length m.now - at }
{
    m.len().saturating_sub(at)
}

// The number that k bytes make, highest first.
// By index: an iterator over bytes gives an Option of a reference, which a module for pointers of 32 bits may not hold.
pub(crate) fn joined(m: &[u8], at: usize, k: usize) -> u64
    requires { (k ≤ 8) × (at + k ≤ length m.now) }
    ensures { result ≡ be 0 (take k (drop at m.now)) }
{
    let mut n: u64 = 0;
    for i in 0..k {
        n = n * 256 + m[at + i] as u64;
    }
    n
}

// The same for any place: 0 where k bytes do not stand there, or make too large a number.
pub fn number(m: &[u8], at: usize, k: usize) -> u64
    ensures { (k ≤ 8) × (at + k ≤ length m.now) → result ≡ be 0 (take k (drop at m.now)) }
{
    if 8 < k || m.len() < at || m.len() - at < k {
        return 0;
    }
    joined(m, at, k)
}

// The lowest bit.
pub fn flag(x: u64) -> bool
    ensures { result ≡ eqb (x % 2) 1 }
{
    x % 2 == 1
}
