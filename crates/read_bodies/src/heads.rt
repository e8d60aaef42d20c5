// The head of a list or a slot: so many bytes, read as one number.
ghost use Rattle.std.specs.Prelude.{◌≤◌};
ghost use Rattle.read_bodies.specs.Heads.{HeadIs};

use read_fields::bytes::{number, remaining};
use settings::type_table::operation_of;
use writing::Operation;

// The number, and the operation in its two highest bits.
pub(crate) fn head(m: &[u8], p: usize, size: usize, operations: u8) -> Option<(u64, Operation)>
    requires { (1 ≤ size) × (size ≤ 8) }
    ensures { HeadIs m.now p size operations result }
{
    if remaining(m, p) < size {
        return None;
    }
    let n = number(m, p, size);
    let operation = operation_of((n >> (8 * size - 2)) % 4, operations)?;
    Some((n, operation))
}
