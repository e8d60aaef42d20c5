// What the call that joins answers.

// What is wrong with a request; the last three say the number of the setting at fault.
#[derive(Clone, Copy)]
pub enum Fault {
    Size,
    Carrier,
    OtherType,
    Version,
    NoRequest,
    LeftOver,
    Unknown(u8),
    Field(u8),
    LastItem(u8),
}

// The length of the request that was written, or why none was: the buffer, one of the requests, or both together.
#[derive(Clone, Copy)]
pub enum Join {
    Written(usize),
    Buffer,
    First(Fault),
    Second(Fault),
    Codings,
    TooMany,
    TooLong,
}
