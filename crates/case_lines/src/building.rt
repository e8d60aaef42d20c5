// Builds messages from bytes that are written in hexadecimal digits.
ghost use Rattle.std.specs.Prelude.{◌≤◌, length};

// The first place from this one on that has the byte, or the end.
fn find(s: &[u8], from: usize, byte: u8) -> usize
    requires { from ≤ length s.now }
    ensures { (from ≤ result) × (result ≤ length s.now) }
{
    match s[from..].iter().position(|b| *b == byte) {
        Some(n) => from + n,
        None => s.len(),
    }
}

fn digit(c: u8) -> Option<u8> {
    match c {
        b'0'..=b'9' => Some(c - b'0'),
        b'A'..=b'F' => Some(c - b'A' + 10),
        _ => None,
    }
}

// Puts bytes from a place on, where they fit; the place after them.
pub fn put_bytes(m: &mut [u8], at: usize, bytes: &[u8]) -> usize
    ensures { result ≤ length m.new }
{
    let size = m.len();
    if size < at || size - at < bytes.len() {
        return size;
    }
    let end = at + bytes.len();
    m[at..end].copy_from_slice(bytes);
    end
}

// Puts the byte of two digits, where both are.
fn put_byte(m: &mut [u8], at: usize, high: Option<u8>, low: Option<u8>) -> usize
    ensures { result ≤ length m.new }
{
    match (high, low) {
        (Some(high), Some(low)) => put_bytes(m, at, &[high % 16 * 16 + low % 16]),
        _ => put_bytes(m, at, b""),
    }
}

// Puts the byte that a mark stands for: the number as it is, as two decimal digits of a half byte each, or as the status code of that place.
fn put_mark(m: &mut [u8], at: usize, mark: u8, number: u8) -> usize
    ensures { result ≤ length m.new }
{
    match mark {
        b'#' => put_bytes(m, at, &[number]),
        b'%' => put_bytes(m, at, &[number / 10 % 10 * 16 + number % 10]),
        b'$' => put_bytes(m, at, &[number % 96 + 32]),
        _ => put_bytes(m, at, b""),
    }
}

// Puts the bytes that are written in digits, two each; #, % and $ are marks of the number, and any other character says nothing.
fn put(m: &mut [u8], at: usize, digits: &[u8], number: u8) -> usize
    ensures { result ≤ length m.new }
{
    let mut p = put_bytes(m, at, b"");
    // The digit that waits for its second.
    let mut high = None;
    for c in digits {
        let low = digit(*c);
        p = put_byte(m, p, high, low);
        p = put_mark(m, p, *c, number);
        high = high.xor(low);
    }
    p
}

// Puts the same digits so many times, numbered from 0.
fn put_times(m: &mut [u8], at: usize, digits: &[u8], count: u8) -> usize
    ensures { result ≤ length m.new }
{
    let mut p = put_bytes(m, at, b"");
    for i in 0..count {
        p = put(m, p, digits, i);
    }
    p
}

// The byte that digits begin with.
fn counted(digits: &[u8]) -> u8 {
    let mut count = [0u8; 1];
    put(&mut count, 0, digits, 0);
    count[0]
}

// Puts a message: digits, among which {20 x ..} says that those between x and } stand 20 times, in hexadecimal as all is.
pub(crate) fn put_message(m: &mut [u8], digits: &[u8]) -> usize
    ensures { result ≤ length m.new }
{
    let open = find(digits, 0, b'{');
    let times = find(digits, open, b'x');
    let close = find(digits, times, b'}');
    let count = counted(&digits[open..times]);
    let p = put(m, 0, &digits[0..open], 0);
    let q = put_times(m, p, &digits[times..close], count);
    put(m, q, &digits[close..digits.len()], 0)
}
