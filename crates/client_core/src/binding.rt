//! The binding of a temporary key.

use msg_ids::Moment;
use octets::Octets;

/// What became of the binding of a temporary key.
#[derive(Clone, Copy, Debug, PartialEq, Eq)]
pub enum BindState {
    /// It is to be asked for.
    Needed,
    /// It was asked for by the message of this number.
    Asked(u64),
    /// The number was refused as too high; it waits for another session.
    Held,
    /// It holds.
    Bound,
    /// It was refused with this code, 0 where the answer was no error.
    Refused(u32),
}

/// The same, with the message that asked.
#[derive(Drop)]
pub(crate) enum Binding {
    Needed,
    Asked { number: u64, seq: u32, body: Octets },
    Held,
    Bound,
    Refused(u32),
}

impl Binding {
    ghost use Rattle.std.specs.Prelude.{◌≡◌};
    ghost use Rattle.client_core.specs.Kept.{binding_in};
    ghost use Rattle.client_core.specs.Told.{shown};

    pub(crate) fn state(&self) -> BindState
        ensures { result ≡ shown (binding_in self.now) }
    {
        match self {
            Binding::Needed => BindState::Needed,
            Binding::Asked { number, .. } => BindState::Asked(*number),
            Binding::Held => BindState::Held,
            Binding::Bound => BindState::Bound,
            Binding::Refused(code) => BindState::Refused(*code),
        }
    }
}

impl Temporary {
    ghost use Rattle.std.specs.Prelude.{◌≡◌};
    ghost use Rattle.client_rules.specs.Asking.{alone_if_asked};
    ghost use Rattle.client_core.specs.Kept.{temporary_in};

    /// Where the binding was asked for, it is to be asked for again, alone.
    pub(crate) fn mark(&mut self)
        ensures kept { self.new.binding ≡ self.old.binding }
        ensures marked { temporary_in self.new ≡ alone_if_asked (temporary_in self.old) }
    {
        if let Binding::Asked { .. } = &self.binding {
            self.is_alone = true;
        }
    }
}

/// What makes a client's key a temporary one.
#[derive(Drop)]
pub(crate) struct Temporary {
    pub(crate) perm: u64,
    pub(crate) expires: Moment,
    pub(crate) binding: Binding,
    pub(crate) is_alone: bool,
}
