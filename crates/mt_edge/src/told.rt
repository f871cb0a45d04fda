//! What a connection came to.

ghost use Rattle.std.specs.Prelude.{◌≡◌};

use crate::link_read::LinkRead;
use octets::Octets;
use std::marker::Model;

/// What a link told when it was given back. Contracts see it as `Told`.
#[derive(Debug, Drop)]
pub struct LinkTold {
    pub(crate) contents: Octets,
    pub(crate) came_bytes: usize,
    pub(crate) written: Octets,
    pub(crate) reads: Vec<LinkRead>,
}

impl Model for LinkTold {
    ghost use Rattle.std.specs.Prelude.{◌≤◌, length, take, drop};
    ghost use Rattle.mt_edge.specs.Links.{Told};

    ghost Value = { Told };

    ghost view = { λ told. record { came = take told.came_bytes told.contents; left = drop told.came_bytes told.contents; written = told.written; reads = told.reads.items } };

    ghost invariant = { λ told. told.came_bytes ≤ length told.contents };
}

impl LinkTold {
    /// The bytes that the link's reads handed over. Takes no memory.
    pub fn came(&self) -> &[u8]
        ensures { result.now ≡ self.now.came }
    {
        &self.contents.as_slice()[..self.came_bytes]
    }

    /// The bytes that the link's reads would still have handed over. Takes no memory.
    pub fn left(&self) -> &[u8]
        ensures { result.now ≡ self.now.left }
    {
        &self.contents.as_slice()[self.came_bytes..]
    }

    /// The bytes that the link's writes took. Takes no memory.
    pub fn written(&self) -> &[u8]
        ensures { result.now ≡ self.now.written }
    {
        self.written.as_slice()
    }

    /// The link's reads in order. Takes no memory.
    pub fn reads(&self) -> &[LinkRead]
        ensures { result.now ≡ self.now.reads }
    {
        self.reads.as_slice()
    }
}
