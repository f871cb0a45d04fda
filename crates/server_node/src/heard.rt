//! The sessions that were heard on a connection.

use octets::Memory;
use server_core::SessionName;
use std::alloc::Global;
use std::marker::Model;

/// The sessions that were heard on a connection, in order of their first packets. Contracts see their names.
#[derive(Drop)]
pub(crate) struct HeardSessions {
    names: Vec<SessionName>,
}

impl Model for HeardSessions {
    ghost use Rattle.std.specs.Prelude.{List};
    ghost use Rattle.server_core.specs.declared.session_name.SessionName.{SessionName as Name};

    ghost Value = { List Name };

    ghost view = { λ heard. heard.names.items };
}

impl HeardSessions {
    ghost use Rattle.std.specs.Prelude.{◌≡◌, [], not, IfOk, OnErr, OnOk};
    ghost use Rattle.server_node.specs.Names.{was_heard, with_name};

    /// None yet. Takes no memory.
    pub(crate) fn new(alloc: Global) -> HeardSessions
        ensures { result ≡ [] }
    {
        HeardSessions {
            names: Vec::new(alloc),
        }
    }

    /// Whether the session of this name was heard.
    pub(crate) fn has(&self, name: SessionName) -> bool
        ensures { result ≡ was_heard self.now name }
    {
        self.names
            .iter()
            .any(|one| one.key == name.key && one.session == name.session)
    }

    /// The session of this name is heard: whether it is by its first packet.
    ///
    /// # Errors
    ///
    /// `Memory`, and then nothing changes.
    pub(crate) fn note(&mut self, name: SessionName) -> Result<bool, Memory>
        ensures first { IfOk result (λ is_first. is_first ≡ not (was_heard self.old name)) }
        ensures noted { OnOk result (self.new ≡ with_name self.old name) }
        ensures unchanged_on_memory { OnErr result (self.new ≡ self.old) }
    {
        if self.has(name) {
            return Ok(false);
        }
        self.names.push(name)?;
        Ok(true)
    }
}
