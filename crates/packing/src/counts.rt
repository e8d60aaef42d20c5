// What the counts' call answers.
ghost use Rattle.menu.specs.Menu.{told};
ghost use Rattle.packing.specs.Packing.{PacksCounts};

use menu::counting::Counts;

// Bits 0 to 7 number, 16 to 31 lines, 32 to 47 channels.
pub fn pack_counts(answer: Option<Counts>) -> u64
    ensures { PacksCounts (told answer) result }
{
    match answer {
        Some(held) => held.lines as u64 * 65536 + held.channels as u64 * 4294967296,
        None => 11,
    }
}
