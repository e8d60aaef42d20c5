// What the two calls answer.

// Whether the first store takes a request and then has the second's tables, or which of the two is no store.
#[derive(Clone, Copy)]
pub enum Check {
    Yes,
    No,
    FirstNotAStore,
    SecondNotAStore,
}

// The length of the request that was written, or why none was.
#[derive(Clone, Copy)]
pub enum Proposal {
    Written(usize),
    FirstNotAStore,
    SecondNotAStore,
    Buffer,
    NoSinglePart,
}
