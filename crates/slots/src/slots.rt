// Bytes as slots of w bytes, which are taken where a whole one is left.
ghost use Rattle.std.specs.Prelude.{◌≡◌, true, ◌↔◌, ◌+◌, ◌≤◌, ◌<◌, length, drop};
ghost use Rattle.slots.specs.Slots.{pad, zeros?, fit, KeyAt, Found, Removed};

use super::bytes::{alike, is_zeros, same, wipe};

// Where the first empty slot starts, or the end of the slots.
pub fn used(s: &[u8], w: usize) -> usize
    ensures { Found (0 < w) zeros? w s.now result }
{
    if w == 0 {
        return 0;
    }
    let mut at = 0;
    for slot in s.chunks_exact(w) {
        if is_zeros(slot) {
            return at;
        }
        at += w;
    }
    at
}

// Whether a key of n bytes fits slots of w bytes at o.
fn key_fits(w: usize, o: usize, n: usize) -> bool
    ensures { (result ≡ true) ↔ ((0 < w) × (o + n ≤ w)) }
{
    0 < w && o <= w && n <= w - o
}

// Where the first slot starts that has the key, of n bytes, at o or is empty, or the end of the slots; n is said apart so that the compiler knows it.
pub fn place_of(s: &[u8], w: usize, o: usize, n: usize, key: &[u8]) -> usize
    ensures { Found (KeyAt w o key.now × (length key.now ≡ n)) (fit o key.now) w s.now result }
{
    if key.len() != n || !key_fits(w, o, n) {
        return 0;
    }
    let mut at = 0;
    for slot in s.chunks_exact(w) {
        if alike(&slot[o..o + n], key) || is_zeros(slot) {
            return at;
        }
        at += w;
    }
    at
}

// Drops the first w bytes, and puts zeros at the end. By index: copy_within compares addresses, which a module for pointers of 32 bits may not hold.
fn shift(s: &mut [u8], w: usize)
    ensures { s.new ≡ pad 0 (length s.old) (drop w s.old) }
{
    let n = s.len().saturating_sub(w);
    for i in 0..n {
        s[i] = s[i + w];
    }
    wipe(&mut s[n..]);
}

// Takes every slot out that has the key at o, and closes the gaps. The slots are counted from the end, also of bytes that are not whole slots.
pub fn remove_all(s: &mut [u8], w: usize, o: usize, key: &[u8])
    ensures { Removed w o key.now s.old s.new }
{
    if !key_fits(w, o, key.len()) {
        return;
    }
    let end = s.len();
    for k in 0..end / w {
        let at = end - (k + 1) * w;
        let a = at + o;
        let e = a + key.len();
        if same(&s[a..e], key) {
            shift(&mut s[at..], w);
        }
    }
}
