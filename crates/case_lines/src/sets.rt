// The calls of the set that a case is for. A trait in place of the matches would be no plainer: its impls would stand in two crates, beside the same calls.
use station::answers::Answer;
use tables::start::Started;

#[derive(Clone, Copy)]
pub enum Set {
    Handheld,
    Vehicle,
}

pub fn start(set: Set, store: &mut [u8]) -> Started {
    match set {
        Set::Handheld => station::handheld::start(store),
        Set::Vehicle => station::vehicle::start(store),
    }
}

pub(crate) fn judge(set: Set, message: &[u8], store: &[u8], reply: &mut [u8]) -> Answer {
    match set {
        Set::Handheld => station::handheld::judge(message, store, reply),
        Set::Vehicle => station::vehicle::judge(message, store, reply),
    }
}

pub(crate) fn commit(set: Set, message: &[u8], store: &mut [u8], reply: &mut [u8]) -> Answer {
    match set {
        Set::Handheld => station::handheld::commit(message, store, reply),
        Set::Vehicle => station::vehicle::commit(message, store, reply),
    }
}
