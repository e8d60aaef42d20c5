// Compares the hash of a result query with the one kept.
ghost use Rattle.station.specs.Queries.{HashSame};

use read_fields::hashes::{HashPlace, hash_size};

// Whether the hash at a place of the message is the one kept in these 11 bytes, and not of code 0; no where they are not 11.
pub fn same_hash(m: &[u8], place: HashPlace, hash: &[u8]) -> bool
    ensures { HashSame m.now place hash.now result }
{
    if hash.len() != 11 {
        return false;
    }
    let code = place.code;
    let start = place.start;
    if code == 0 {
        return false;
    }
    if code != hash[0] {
        return false;
    }
    let size = hash_size(code);
    if m.len() < start {
        return false;
    }
    if m.len() - start < size {
        return false;
    }
    let end = start + size;
    let last = 1 + size;
    m[start..end] == hash[1..last]
}
