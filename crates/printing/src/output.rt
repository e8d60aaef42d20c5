// Writes bytes and numbers to a writer, as the programs do to standard output.
ghost use Rattle.std.specs.Prelude.{◌∷◌, take, OnOk, IfSome};
ghost use Rattle.std.specs.Io.KnownBytes.{Appends};
ghost use Rattle.printing.specs.Hex.{hex_pair, six_digits, spaced};

use std::fmt::Display;
use std::io;
use std::io::Write;

// The hexadecimal digits.
const HEX: [u8; 16] = *b"0123456789ABCDEF";

pub fn text<W: Write>(out: &mut W, bytes: &[u8]) -> io::Result<()>
    ensures { OnOk result (Appends (W.contents out.old) (W.contents out.new) bytes.now) }
{
    out.write_all(bytes)
}

// A number in decimal digits.
pub fn decimal<W: Write, N: Display + Drop>(out: &mut W, n: N) -> io::Result<()>
    ensures { OnOk result (IfSome (N.output n) (Appends (W.contents out.old) (W.contents out.new))) }
{
    write!(out, "{n}")
}

// Two hexadecimal digits.
pub fn hex_pair<W: Write>(out: &mut W, b: u8) -> io::Result<()>
    ensures { OnOk result (Appends (W.contents out.old) (W.contents out.new) (hex_pair b)) }
{
    let high = (b / 16) as usize;
    let low = (b % 16) as usize;
    text(out, &[HEX[high], HEX[low]])
}

// The 24 bits of an address in six hexadecimal digits.
pub fn address<W: Write>(out: &mut W, a: u32) -> io::Result<()>
    ensures { OnOk result (Appends (W.contents out.old) (W.contents out.new) (six_digits a)) }
{
    hex_pair(out, (a / 65536 % 256) as u8)?;
    hex_pair(out, (a / 256 % 256) as u8)?;
    hex_pair(out, (a % 256) as u8)
}

// A space and two hexadecimal digits, in one write, since standard output is not buffered.
fn byte<W: Write>(out: &mut W, b: u8) -> io::Result<()>
    ensures { OnOk result (Appends (W.contents out.old) (W.contents out.new) (32 ∷ hex_pair b)) }
{
    let high = (b / 16) as usize;
    let low = (b % 16) as usize;
    text(out, &[b' ', HEX[high], HEX[low]])
}

// The first bytes, as many as are counted, a space before each.
pub fn hex<W: Write>(out: &mut W, bytes: &[u8], count: usize) -> io::Result<()>
    ensures { OnOk result (Appends (W.contents out.old) (W.contents out.new) (spaced (take count bytes.now))) }
{
    for b in &bytes[..count.min(bytes.len())] {
        byte(out, *b)?;
    }
    Ok(())
}
