//! What an event of a server gives.

ghost use Rattle.std.specs.Prelude.{◌≡◌, [], IfOk};

use octets::Memory;
use server_dispatch::Entries;
use server_output::Outs;
use std::alloc::Global;

/// What an event of a server gives.
#[derive(Debug, Drop)]
pub struct Effects {
    /// The packets that go out, in order.
    pub out: Outs,
    /// The answers to calls of the service, in order.
    pub entries: Entries,
}

impl Effects {
    /// Nothing.
    ///
    /// # Errors
    ///
    /// `Memory`.
    pub(crate) fn none(alloc: Global) -> Result<Effects, Memory>
        ensures { IfOk result (λ effects. (effects.out.outs ≡ []) × (effects.entries.entries ≡ [])) }
    {
        Ok(Effects {
            out: Outs::new(alloc, 0)?,
            entries: Entries::new(alloc, 0)?,
        })
    }
}
