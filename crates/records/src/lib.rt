// The records that the programs read from standard input: length and kind, each two bytes little-endian, then a message.
#![tactic(auto)]

ghost use Rattle.std.specs.Prelude.{◌≡◌, ◌≤◌, ◌<◌, ◌+◌, ◌*◌, length, take, IfOk, IfSome};
ghost use Rattle.std.specs.Io.KnownBytes.{Consumes, IsAtEnd};
ghost use Rattle.records.specs.Records.{Within, Reads, Follows, PassesOver};

use std::io;
use std::io::Read;

// What stands next in the input: a message of so many bytes, one too long for the buffer, or a record cut short.
#[derive(Clone, Copy)]
pub enum Record {
    Whole(u16, usize),
    TooLong(u16),
    Cut,
}

fn little_endian(low: u8, high: u8) -> u16
    ensures value { result ≡ low + high * 256 }
    ensures low_byte { low < 256 }
    ensures high_byte { high < 256 }
{
    low as u16 + high as u16 * 256
}

// Reads until the buffer is full or the input ends: how many bytes came. The reader alone knows how many a read gives, so a `for` has nothing to count.
fn read_full<R: Read>(input: &mut R, buffer: &mut [u8]) -> io::Result<usize>
    ensures bound { IfOk result (λ n. n ≤ length buffer.new) }
    ensures bytes { IfOk result (λ n. Consumes (R.remaining input.old) (R.remaining input.new) (take n buffer.new)) }
    ensures end { IfOk result (λ n. n < length buffer.new → IsAtEnd (R.remaining input.new)) }
{
    let mut got = 0;
    while got < buffer.len() {
        let more = input.read(&mut buffer[got..])?;
        if more == 0 {
            return Ok(got);
        }
        got += more;
    }
    Ok(got)
}

// Reads so many bytes and keeps none of them: were they all there?
fn pass_over<R: Read>(input: &mut R, length: usize) -> io::Result<bool>
    ensures { IfOk result (PassesOver (R.remaining input.old) (R.remaining input.new) length) }
{
    let mut chunk = [0u8; 4096];
    for _ in 0..length / 4096 {
        if read_full(input, &mut chunk)? < 4096 {
            return Ok(false);
        }
    }
    let left = length % 4096;
    Ok(read_full(input, &mut chunk[0..left])? == left)
}

// The message behind the head of a record.
fn read_message<R: Read>(
    input: &mut R,
    buffer: &mut [u8],
    kind: u16,
    size: usize,
) -> io::Result<Record>
    ensures within { IfOk result (Within (length buffer.new)) }
    ensures bytes { IfOk result (Follows (R.remaining input.old) (R.remaining input.new) buffer.new kind size) }
{
    if buffer.len() < size {
        if pass_over(input, size)? {
            return Ok(Record::TooLong(kind));
        }
        return Ok(Record::Cut);
    }
    if read_full(input, &mut buffer[0..size])? < size {
        return Ok(Record::Cut);
    }
    Ok(Record::Whole(kind, size))
}

// The next record; a message that fits the buffer stands at its start, and a longer one is passed over.
// Each program has a loop of its own over it: one function for all would call a closure, and so have a `requires`.
pub fn read_record<R: Read>(input: &mut R, buffer: &mut [u8]) -> io::Result<Option<Record>>
    ensures within { IfOk result (λ r. IfSome r (Within (length buffer.new))) }
    ensures bytes { IfOk result (Reads (R.remaining input.old) (R.remaining input.new) buffer.new) }
{
    let mut head = [0u8; 4];
    let got = read_full(input, &mut head)?;
    if got == 0 {
        return Ok(None);
    }
    if got < 4 {
        return Ok(Some(Record::Cut));
    }
    let size = little_endian(head[0], head[1]);
    let kind = little_endian(head[2], head[3]);
    let record = read_message(input, buffer, kind, size as usize)?;
    Ok(Some(record))
}
