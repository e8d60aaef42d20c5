// What the call answers.

// Why nothing was reported; a bad query has no types or a false count, or its report would have over 255 messages.
#[derive(Clone, Copy)]
pub enum NoReport {
    Buffer,
    NotAStore,
    Size,
    Carrier,
    OtherType,
    Version,
    BadQuery,
    NoMessage,
}

// How many messages the report has, and the length of the one that was written.
#[derive(Clone, Copy)]
pub struct Written {
    pub total: u8,
    pub length: usize,
}
