// Runs of bytes: copied, widened, wiped and compared. Every length is taken.
// By index: an iterator over bytes gives an Option of a reference, and a copy of slices compares addresses, which a module for pointers of 32 bits may not hold.
ghost use Rattle.std.specs.Prelude.{◌≡◌, ◌++◌, map, length, take, drop, replicate};
ghost use Rattle.slots.specs.Slots.{flat, pad, u16, zeros?, same?};

// Copies as many bytes as both have.
pub fn copy(dst: &mut [u8], src: &[u8])
    ensures { dst.new ≡ take (length dst.old) src.now ++ drop (length src.now) dst.old }
{
    let n = dst.len().min(src.len());
    for i in 0..n {
        dst[i] = src[i];
    }
}

// Makes every byte 0.
pub fn wipe(s: &mut [u8])
    ensures { s.new ≡ replicate (length s.old) 0 }
{
    s.fill(0);
}

// Copies src, as far as dst goes, and wipes what is left of dst.
pub fn copy_padded(dst: &mut [u8], src: &[u8])
    ensures { dst.new ≡ pad 0 (length dst.old) src.now }
{
    let n = dst.len().min(src.len());
    copy(dst, src);
    wipe(&mut dst[n..]);
}

// Writes each byte of src as a number of two bytes, high byte first, as far as dst goes, and wipes what is left of dst.
pub fn widen_padded(dst: &mut [u8], src: &[u8])
    ensures { dst.new ≡ pad 0 (length dst.old) (flat (map u16 src.now)) }
{
    wipe(dst);
    let n = (dst.len() / 2).min(src.len());
    for i in 0..n {
        dst[2 * i + 1] = src[i];
    }
}

// Whether every byte is 0.
pub fn is_zeros(s: &[u8]) -> bool
    ensures { result ≡ zeros? s.now }
{
    for i in 0..s.len() {
        if s[i] != 0 {
            return false;
        }
    }
    true
}

// Whether both are the same bytes, and as many.
pub fn same(a: &[u8], b: &[u8]) -> bool
    ensures { result ≡ same? a.now b.now }
{
    a == b
}

// Whether every byte of a long run is 0: no byte ends the loop, so that the compiler takes many at a time.
pub fn is_clear(s: &[u8]) -> bool
    ensures { result ≡ zeros? s.now }
{
    let mut clear = true;
    for i in 0..s.len() {
        clear = clear & (s[i] == 0);
    }
    clear
}

// The same as same, for keys of a known length that differ late: no byte ends the loop.
pub fn alike(a: &[u8], b: &[u8]) -> bool
    ensures { result ≡ same? a.now b.now }
{
    if b.len() != a.len() {
        return false;
    }
    let mut all = true;
    for i in 0..a.len() {
        all = all & (a[i] == b[i]);
    }
    all
}
