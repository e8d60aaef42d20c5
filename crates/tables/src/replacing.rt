// "Replace empties the table, then adds each entry in order": the first half.
ghost use Rattle.std.specs.Prelude.{◌≡◌, length, replicate};
ghost use Rattle.tables.specs.Apply.{start_from};

use slots::bytes::wipe;
use writing::Operation;

// Empties a table that is to be replaced.
pub fn empty_to_replace(part: &mut [u8], operation: Operation)
    ensures { part.new ≡ start_from operation (replicate (length part.old) 0) part.old }
{
    match operation {
        Operation::Add => {}
        Operation::Delete => {}
        Operation::Replace => wipe(part),
    }
}
