// Writes a reply.
ghost use Rattle.std.specs.Prelude.{◌≡◌, ◌≤◌, length};
ghost use Rattle.writing.specs.Carrier.{result_number};
ghost use Rattle.station.specs.Replies.{ReplyWritten};

use read_carrier::carrier::START;
use read_fields::hashes::hash_size;
use slots::bytes::copy;
use writing::CfgResult;

// CfgResult of a result.
pub fn result_number(res: CfgResult) -> u8
    ensures { result ≡ result_number res }
{
    res as u8
}

// The reply with this result and failed ID that carries the hash kept in these 11 bytes; its length, or 0 where a buffer is too short for it.
// By slots' copy: copy_from_slice compares two addresses, which a module for pointers of 32 bits may not hold as numbers.
pub fn write_reply(reply: &mut [u8], res: u8, failed: u8, hash: &[u8]) -> u8
    ensures { 20 ≤ length reply.old → ReplyWritten res failed hash.now reply.old reply.new result }
{
    if reply.len() < 20 {
        return 0;
    }
    if hash.len() != 11 {
        return 0;
    }
    let code = hash[0];
    let size = hash_size(code);
    let length = (size % 16) as u8;
    let head = [
        START[0],
        START[1],
        0,
        6 + length,
        8,
        0,
        9,
        res,
        failed,
        code,
    ];
    copy(&mut reply[0..10], &head);
    let end = 10 + size;
    let last = 1 + size;
    copy(&mut reply[10..end], &hash[1..last]);
    10 + length
}
