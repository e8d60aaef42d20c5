// The two kinds of entry that have flags, an address and a text, in slots and in lists of contacts.
#[derive(Clone, Copy)]
pub enum Members {
    OfGroups,
    OfIndividuals,
}
