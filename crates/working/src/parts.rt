// Parts of bytes.
ghost use Rattle.std.specs.Prelude.{◌≡◌, ◌+◌, ◌≤◌, length, replicate};
ghost use borrow.Rule.Slice.PartMut.{put_mid, mid_of};

use slots::bytes::{copy, wipe};

// Copies n bytes from a place of one run to a place of another.
pub(crate) fn copy_run(dst: &mut [u8], to: usize, src: &[u8], from: usize, n: usize)
    requires { (to + n ≤ length dst.old) × (from + n ≤ length src.now) }
    ensures { dst.new ≡ put_mid to n dst.old (mid_of from n src.now) }
{
    let end = to + n;
    let tail = from + n;
    copy(&mut dst[to..end], &src[from..tail]);
}

// How many bytes are moved at once, whatever a text has of them: no text is longer, and the compiler needs no loop for a number that it knows.
pub(crate) const CHUNK: usize = 48;

// Copies as many from a place of one run to a place of another.
pub(crate) fn move_chunk(dst: &mut [u8], to: usize, src: &[u8], from: usize)
    requires { (to + 48 ≤ length dst.old) × (from + 48 ≤ length src.now) }
    ensures { dst.new ≡ put_mid to 48 dst.old (mid_of from 48 src.now) }
{
    let mut chunk = [0u8; CHUNK];
    let tail = from + CHUNK;
    copy(&mut chunk, &src[from..tail]);
    let end = to + CHUNK;
    copy(&mut dst[to..end], &chunk);
}

// Makes as many 0, from a place on.
pub(crate) fn wipe_chunk(dst: &mut [u8], to: usize)
    requires { to + 48 ≤ length dst.old }
    ensures { dst.new ≡ put_mid to 48 dst.old (replicate 48 0) }
{
    let end = to + CHUNK;
    wipe(&mut dst[to..end]);
}
