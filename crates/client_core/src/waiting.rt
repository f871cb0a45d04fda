//! What waits to be sent beside acknowledgements and calls.

use crate::number_list::NumberList;
use octets::{IdList, Octets};
use std::alloc::Global;

/// How messages fared that a request asked about, a byte for each.
#[derive(Drop)]
pub(crate) struct States {
    pub(crate) request: u64,
    pub(crate) info: Octets,
}

/// The last request for states.
#[derive(Drop)]
pub(crate) struct Asked {
    pub(crate) number: u64,
    pub(crate) numbers: IdList,
}

/// What waits.
#[derive(Drop)]
pub(crate) struct Waiting {
    pub(crate) told: Option<States>,
    pub(crate) resent: NumberList,
    pub(crate) states: bool,
    pub(crate) ping: Option<u64>,
    pub(crate) salts: Option<u32>,
    pub(crate) destroyed: Option<u64>,
}

impl Waiting {
    ghost use Rattle.std.specs.Prelude.{◌≡◌};
    ghost use Rattle.client_rules.specs.Client.{nothing_waits};
    ghost use Rattle.client_core.specs.Kept.{waiting_in};
    ghost use Rattle.client_core.specs.Sound.{CanWait};

    /// Nothing waits.
    pub(crate) fn new(alloc: Global) -> Waiting
        ensures waits { waiting_in result ≡ nothing_waits }
        ensures can_wait { CanWait result }
    {
        Waiting {
            told: None,
            resent: NumberList::new(alloc),
            states: false,
            ping: None,
            salts: None,
            destroyed: None,
        }
    }
}
