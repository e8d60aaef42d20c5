// Which addresses are in range.
ghost use Rattle.read_fields.specs.TextsAndNumbers.{AddressRefused};

// Whether an address is below 100000 hex, or its low 15 bits are 0.
pub fn address_refused(address: u32) -> bool
    ensures { AddressRefused address result }
{
    address < 0x10_0000 || address % 0x8000 == 0
}
