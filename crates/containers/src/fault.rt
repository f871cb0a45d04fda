//! Why a container isn't lawful.

use std::error::Error;
use std::fmt;

/// What is wrong at a place of a container.
#[derive(Clone, Copy, Debug, PartialEq, Eq)]
pub enum Why {
    /// The inner body begins with `msg_container`.
    Nested,
    /// The inner number isn't below the container's.
    NotBelow,
    /// The inner length isn't a multiple of 4.
    Odd,
    /// The count, a head of 16 bytes or an inner body is cut.
    Short,
    /// The count is over 1,020.
    TooMany,
    /// Bytes are left behind the last message.
    Extra,
}

impl fmt::Display for Why {
    fn fmt<W: fmt::Write>(&self, f: &mut fmt::Formatter<W>) -> fmt::Result {
        let text = match self {
            Why::Nested => "a container in a container",
            Why::NotBelow => "a number that isn't below the container's",
            Why::Odd => "a length that isn't a multiple of 4",
            Why::Short => "too few bytes",
            Why::TooMany => "too many messages",
            Why::Extra => "bytes behind the last message",
        };
        write!(f, "{text}")
    }
}

/// The first fault of a container.
#[derive(Clone, Copy, Debug, PartialEq, Eq)]
pub struct ContainerFault {
    /// The inner message that has it, counted from 0. A fault of the count has place 0, bytes behind the
    /// last message have the place behind it.
    pub place: u32,
    /// What is wrong there.
    pub why: Why,
}

impl fmt::Display for ContainerFault {
    fn fmt<W: fmt::Write>(&self, f: &mut fmt::Formatter<W>) -> fmt::Result {
        let place = self.place;
        let why = self.why;
        write!(f, "{why} at message {place} of a container")
    }
}

impl Error for ContainerFault {}
