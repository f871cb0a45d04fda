//! A packet that is remembered.

use octets::IdList;

/// A packet by its outer message identifier, with those of the calls inside.
#[derive(Debug, Drop)]
pub(crate) struct Packet {
    pub(crate) outer: u64,
    pub(crate) inner: IdList,
}
