//! A relay.

use crate::fault::RelayFault;
use crate::first::First;
use crate::laws::one_outcome;
use crate::phase::Phase;
use octets::Octets;
use std::alloc::Global;
use std::marker::Model;
use std::{fmt, mem};
use transport::Form;

/// Turns a connection that a client has obfuscated with a secret into one in plain framing: what the client has sent goes
/// out upwards in the plain form, what the server has sent in that form goes out downwards as the client reads it. Each
/// whole packet goes out in the call that completes it. Contracts see it as a `Kept`.
#[derive(Drop)]
pub struct Relay {
    form: Form,
    secret: [u8; 16],
    phase: Phase,
}

impl Model for Relay {
    ghost use Rattle.secret_relay.specs.Kept.{Kept, IsSound};

    ghost Value = { Kept };

    ghost view = { λ relay. record { form = relay.form; secret = relay.secret; phase = relay.phase } };

    ghost invariant = { λ relay. IsSound relay.form relay.phase };
}

impl fmt::Debug for Relay {
    /// The form and how far it came: the secret isn't shown.
    fn fmt<W: fmt::Write>(&self, f: &mut fmt::Formatter<W>) -> fmt::Result {
        f.debug_struct("Relay")
            .field("form", &self.form)
            .field("phase", &self.phase)
            .finish_non_exhaustive()
    }
}

impl Relay {
    ghost use Rattle.std.specs.Prelude.{◌≡◌, ◌≢◌, ◌<◌, ◌↔◌, ◌++◌, ◌⊎◌, ℕ, List, [], length, Ok, Err, OnOk, IfErr};
    ghost use Rattle.transport.specs.declared.form.Form.TheVariants.{Full};
    ghost use Rattle.secret_relay.specs.declared.fault.RelayFault.{RelayFault as Faults};
    ghost use Rattle.secret_relay.specs.declared.fault.RelayFault.TheVariants as faults;
    ghost use Rattle.secret_relay.specs.Stories.{DownEnds, GoesOn, Relayed, Story, UpEnds, nothing, with_down, with_up};
    ghost use Rattle.secret_relay.specs.Standing.{Adds, HasEnded, OnEnd, Stands};

    /// A relay of a connection that no byte has come of yet. The form is that of the plain side, and isn't the full one.
    /// Takes no memory.
    pub fn new(form: Form, secret: &[u8; 16]) -> Relay
        requires { form ≢ Full }
        ensures stands { Stands result nothing }
        ensures form { result.form ≡ form }
        ensures secret { result.secret ≡ secret.now }
    {
        Relay {
            form,
            secret: *secret,
            phase: Phase::Awaits(First::new()),
        }
    }

    /// Takes a piece of what the client has sent, and puts at the end what goes out upwards: with the last of the client's
    /// first 64 bytes the start of the form, and then each whole packet in it.
    ///
    /// # Errors
    ///
    /// `Start`: the client's first 64 bytes carry no tag under the secret. `Frame`: the client's stream has that fault, and
    /// the packets before it went out. `Length`: a packet is next that the padded form doesn't carry, and the packets before
    /// it went out. From then on every call answers the same. `Memory`, and then the relay and the text are as they were.
    pub fn up(&mut self, alloc: Global, piece: &[u8], out: &mut Octets) -> Result<(), RelayFault>
        ensures goes_on { OnOk result ((story : Story) → Stands self.old story
            → Adds out.old out.new (λ more. Stands self.new (with_up piece.now more story))) }
        ensures ends { IfErr result (λ fault. OnEnd fault ((story : Story) → Stands self.old story
            → Adds out.old out.new (λ more. UpEnds self.old.form self.old.secret fault (with_up piece.now more story)))) }
        ensures only_goes_on { (story : Story) (more : List ℕ) → Stands self.old story
            → Relayed self.old.form self.old.secret (with_up piece.now more story) → (result ≡ Ok tt) ⊎ (result ≡ Err faults.Memory) }
        ensures only_ends { (story : Story) (more : List ℕ) (fault : Faults) → Stands self.old story
            → UpEnds self.old.form self.old.secret fault (with_up piece.now more story) → (result ≡ Err fault) ⊎ (result ≡ Err faults.Memory) }
        ensures ended { IfErr result (λ fault. OnEnd fault (HasEnded fault self.new)) }
        ensures never_early { IfErr result (λ fault. fault ≢ faults.Early) }
        ensures same_end { (fault : Faults) → HasEnded fault self.old → (result ≡ Err fault) × (self.new ≡ self.old) × (out.new ≡ out.old) }
        ensures unchanged_on_memory { result ≡ Err faults.Memory → (self.new ≡ self.old) × (out.new ≡ out.old) }
        ensures same_sides { (self.new.form ≡ self.old.form) × (self.new.secret ≡ self.old.secret) }
    {
        one_outcome();
        let phase = mem::replace(&mut self.phase, Phase::Ended(RelayFault::Memory));
        let (phase, result) = phase.up(alloc, self.form, &self.secret, piece, out);
        self.phase = phase;
        result
    }

    /// Takes a piece of what the server has sent, and puts at the end what goes out downwards: each whole packet in it, framed
    /// and enciphered as the client reads it.
    ///
    /// # Errors
    ///
    /// `Early`: the client's first 64 bytes aren't there yet, and the relay and the text are as they were. `Frame`: the
    /// server's stream has that fault, and the packets before it went out. `Length`: a packet is next that the padded form
    /// doesn't carry, and the packets before it went out. From then on every call answers the same. `Memory`, and then the
    /// relay and the text are as they were.
    pub fn down(&mut self, alloc: Global, piece: &[u8], out: &mut Octets) -> Result<(), RelayFault>
        ensures goes_on { OnOk result ((story : Story) → Stands self.old story
            → Adds out.old out.new (λ more. Stands self.new (with_down piece.now more story))) }
        ensures ends { IfErr result (λ fault. OnEnd fault ((story : Story) → Stands self.old story
            → Adds out.old out.new (λ more. DownEnds self.old.form self.old.secret fault (with_down piece.now more story)))) }
        ensures only_goes_on { (story : Story) (more : List ℕ) → Stands self.old story
            → GoesOn self.old.form self.old.secret (with_down piece.now more story) → (result ≡ Ok tt) ⊎ (result ≡ Err faults.Memory) }
        ensures only_ends { (story : Story) (more : List ℕ) (fault : Faults) → Stands self.old story
            → DownEnds self.old.form self.old.secret fault (with_down piece.now more story) → (result ≡ Err fault) ⊎ (result ≡ Err faults.Memory) }
        ensures ended { IfErr result (λ fault. OnEnd fault (HasEnded fault self.new)) }
        ensures early { (story : Story) → Stands self.old story → (result ≡ Err faults.Early ↔ length story.client < 64) }
        ensures same_end { (fault : Faults) → HasEnded fault self.old → (result ≡ Err fault) × (self.new ≡ self.old) × (out.new ≡ out.old) }
        ensures unchanged_on_early { result ≡ Err faults.Early → (self.new ≡ self.old) × (out.new ≡ out.old) }
        ensures unchanged_on_memory { result ≡ Err faults.Memory → (self.new ≡ self.old) × (out.new ≡ out.old) }
        ensures same_sides { (self.new.form ≡ self.old.form) × (self.new.secret ≡ self.old.secret) }
    {
        one_outcome();
        let phase = mem::replace(&mut self.phase, Phase::Ended(RelayFault::Memory));
        let (phase, result) = phase.down(alloc, self.form, piece, out);
        self.phase = phase;
        result
    }
}
