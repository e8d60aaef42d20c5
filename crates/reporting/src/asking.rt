// What a query asks for.
ghost use Rattle.std.specs.Prelude.{ℕ, drop};
ghost use Rattle.writing.specs.Carrier.{Opens};
ghost use Rattle.reporting.specs.Asking.{AskedIs, TypesIs, QueryIs};

use super::answers::NoReport;
use read_carrier::carrier::{Unopened, VERSION, open_message};
use read_fields::bytes::number;
use reports::Asked;

// The MsgType of a query.
const QUERY: u8 = 2;

// Where a query's types start.
pub(crate) const TYPES: usize = 8;

// The type that a byte asks for.
pub(crate) fn asked_by(byte: u8) -> Option<Asked>
    ensures { AskedIs byte result }
{
    match byte {
        0xC8 => Some(Asked::Groups),
        0xC9 => Some(Asked::Individuals),
        0xCA => Some(Asked::Lines),
        0xCB => Some(Asked::Key),
        0xCC => Some(Asked::QuickTexts),
        0xCD => Some(Asked::Home),
        0xCE => Some(Asked::Channels),
        0xCF => Some(Asked::System),
        0xD0 => Some(Asked::StatusTexts),
        0xFF => Some(Asked::Hash),
        _ => None,
    }
}

// Whether a query says as many types as it has, and at least one.
fn has_types(m: &[u8]) -> bool
    requires { (coding : ℕ) × Opens 1 2 coding (drop 6 m.now) m.now }
    ensures { TypesIs m.now result }
{
    if m.len() < TYPES {
        return false;
    }
    let count = number(m, 7, 1);
    if count == 0 {
        return false;
    }
    count == (m.len() - TYPES) as u64
}

// Whether the message, of at most so many bytes, asks for the types that stand from byte 8 on; or why it is refused.
pub(crate) fn read_query(m: &[u8], most: usize) -> Result<(), NoReport>
    ensures { QueryIs most m.now result }
{
    match open_message(m, most) {
        Err(Unopened::Size) => Err(NoReport::Size),
        Err(Unopened::Carrier) => Err(NoReport::Carrier),
        Ok(opened) => {
            if opened.kind != QUERY {
                return Err(NoReport::OtherType);
            }
            if opened.version != VERSION {
                return Err(NoReport::Version);
            }
            if !has_types(m) {
                return Err(NoReport::BadQuery);
            }
            Ok(())
        }
    }
}
