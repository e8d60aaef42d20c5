// Hash values at a place of a message.
ghost use Rattle.read_fields.specs.Hashes.{HashAt, SizeOf};

use super::bytes::remaining;

// The value's bytes start there; the code says how many they are.
#[derive(Clone, Copy)]
pub struct HashPlace {
    pub code: u8,
    pub start: usize,
}

// How many bytes a hash value of this code has; 0 for a code out of range.
pub fn hash_size(code: u8) -> usize
    ensures { SizeOf code result }
{
    match code {
        1 => 4,
        2 => 10,
        _ => 0,
    }
}

// The hash value of this code at a place, and the place after it.
pub fn read_hash(m: &[u8], at: usize, code: u8) -> Option<(HashPlace, usize)>
    ensures { HashAt m.now at code result }
{
    if 2 < code {
        return None;
    }
    let size = hash_size(code);
    if remaining(m, at) < size {
        return None;
    }
    Some((HashPlace { code, start: at }, at + size))
}
