//! How far a relay came.

ghost use Rattle.std.specs.Prelude.{◌≡◌, ◌≢◌, ◌<◌, ◌↔◌, ◌++◌, Err, IfErr, IfOk, List, OnOk, length, ℕ};
ghost use Rattle.transport.specs.declared.form.Form.TheVariants.{Full};
ghost use Rattle.secret_relay.specs.declared.fault.RelayFault.TheVariants as faults;
ghost use Rattle.secret_relay.specs.Stories.{UpEnds, begun_with};
ghost use Rattle.secret_relay.specs.Standing.{Adds, KeepsLink, OnEnd};

use crate::fault::RelayFault;
use crate::first::First;
use crate::link::Link;
use cipher_modes::laws::ctr_pieces_equal_the_whole;
use obfus::{Init, ObfusFault, START_BYTES};
use octets::Octets;
use std::alloc::Global;
use transport::{Form, start_of};

/// How far a relay came.
#[derive(Debug, Drop)]
pub(crate) enum Phase {
    /// It awaits more of the client's first bytes.
    Awaits(First),
    /// It knows the form inside and the key streams.
    Links(Link),
    /// It ended with this fault.
    Ended(RelayFault),
}

impl Phase {
    ghost use Rattle.secret_relay.specs.declared.fault.RelayFault.{RelayFault as Faults};
    ghost use Rattle.secret_relay.specs.declared.phase.Phase.TheVariants.{Ended};
    ghost use Rattle.secret_relay.specs.Kept.{IsSound};
    ghost use Rattle.secret_relay.specs.Stories.{DownEnds, Story, with_down, with_up};
    ghost use Rattle.secret_relay.specs.Standing.{StandsIn};

    /// Takes a piece of what the client has sent: how far the relay comes by it, and what it answers.
    pub(crate) fn up(
        self,
        alloc: Global,
        form: Form,
        secret: &[u8; 16],
        piece: &[u8],
        out: &mut Octets,
    ) -> (Phase, Result<(), RelayFault>)
        requires { IsSound form self }
        ensures sound { IsSound form result.0 }
        ensures goes_on { OnOk result.1 ((story : Story) → StandsIn form secret.now self story
            → Adds out.old out.new (λ more. StandsIn form secret.now result.0 (with_up piece.now more story))) }
        ensures ends { IfErr result.1 (λ fault. OnEnd fault ((story : Story) → StandsIn form secret.now self story
            → Adds out.old out.new (λ more. UpEnds form secret.now fault (with_up piece.now more story)))) }
        ensures ended { IfErr result.1 (λ fault. OnEnd fault (result.0 ≡ Ended fault)) }
        ensures never_early { IfErr result.1 (λ fault. fault ≢ faults.Early) }
        ensures same_end { (fault : Faults) → self ≡ Ended fault → (result.1 ≡ Err fault) × (result.0 ≡ self) × (out.new ≡ out.old) }
        ensures unchanged_on_memory { result.1 ≡ Err faults.Memory → (result.0 ≡ self) × (out.new ≡ out.old) }
    {
        ctr_pieces_equal_the_whole();
        match self {
            Phase::Ended(fault) => (Phase::Ended(fault), Err(fault)),
            Phase::Links(mut link) => match link.up(alloc, form, piece, out) {
                Ok(None) => (Phase::Links(link), Ok(())),
                Ok(Some(fault)) => (Phase::Ended(fault), Err(fault)),
                Err(_memory) => (Phase::Links(link), Err(RelayFault::Memory)),
            },
            Phase::Awaits(first) => {
                let (more, count) = first.with(piece);
                if more.len() < START_BYTES {
                    return (Phase::Awaits(more), Ok(()));
                }
                match begin(alloc, form, secret, &more.whole(), &piece[count..], out) {
                    Ok(link) => (Phase::Links(link), Ok(())),
                    Err(RelayFault::Memory) => (Phase::Awaits(first), Err(RelayFault::Memory)),
                    Err(fault) => (Phase::Ended(fault), Err(fault)),
                }
            }
        }
    }

    /// Takes a piece of what the server has sent, in the same way.
    pub(crate) fn down(
        self,
        alloc: Global,
        form: Form,
        piece: &[u8],
        out: &mut Octets,
    ) -> (Phase, Result<(), RelayFault>)
        requires { IsSound form self }
        ensures sound { IsSound form result.0 }
        ensures goes_on { OnOk result.1 ((secret : List ℕ) (story : Story) → StandsIn form secret self story
            → Adds out.old out.new (λ more. StandsIn form secret result.0 (with_down piece.now more story))) }
        ensures ends { IfErr result.1 (λ fault. OnEnd fault ((secret : List ℕ) (story : Story) → StandsIn form secret self story
            → Adds out.old out.new (λ more. DownEnds form secret fault (with_down piece.now more story)))) }
        ensures ended { IfErr result.1 (λ fault. OnEnd fault (result.0 ≡ Ended fault)) }
        ensures early { (secret : List ℕ) (story : Story) → StandsIn form secret self story → (result.1 ≡ Err faults.Early ↔ length story.client < 64) }
        ensures same_end { (fault : Faults) → self ≡ Ended fault → (result.1 ≡ Err fault) × (result.0 ≡ self) × (out.new ≡ out.old) }
        ensures unchanged_on_early { result.1 ≡ Err faults.Early → (result.0 ≡ self) × (out.new ≡ out.old) }
        ensures unchanged_on_memory { result.1 ≡ Err faults.Memory → (result.0 ≡ self) × (out.new ≡ out.old) }
    {
        ctr_pieces_equal_the_whole();
        match self {
            Phase::Ended(fault) => (Phase::Ended(fault), Err(fault)),
            Phase::Awaits(first) => (Phase::Awaits(first), Err(RelayFault::Early)),
            Phase::Links(mut link) => match link.down(alloc, form, piece, out) {
                Ok(None) => (Phase::Links(link), Ok(())),
                Ok(Some(fault)) => (Phase::Ended(fault), Err(fault)),
                Err(_memory) => (Phase::Links(link), Err(RelayFault::Memory)),
            },
        }
    }
}

// Reads the client's first 64 bytes, and takes what is behind them. What goes out upwards begins with the start of the form.
fn begin(
    alloc: Global,
    form: Form,
    secret: &[u8; 16],
    wire: &[u8; START_BYTES],
    rest: &[u8],
    out: &mut Octets,
) -> Result<Link, RelayFault>
    requires { form ≢ Full }
    ensures begun { IfOk result (λ link. Adds out.old out.new (λ more. KeepsLink form secret.now link (begun_with (wire.now ++ rest.now) more))) }
    ensures not_full { IfOk result (λ link. link.form ≢ Full) }
    ensures ends { IfErr result (λ fault. OnEnd fault (Adds out.old out.new (λ more. UpEnds form secret.now fault (begun_with (wire.now ++ rest.now) more)))) }
    ensures never_early { IfErr result (λ fault. fault ≢ faults.Early) }
    ensures unchanged_on_memory { result ≡ Err faults.Memory → out.new ≡ out.old }
{
    ctr_pieces_equal_the_whole();
    let pair = match Init::read_with(wire, secret) {
        Ok(pair) => pair,
        Err(ObfusFault::Tag { found }) => return Err(RelayFault::Start { found }),
    };
    let mut link = Link::new(alloc, pair);
    let end = out.as_slice().len();
    out.push_all(alloc, start_of(form))?;
    match link.up(alloc, form, rest, out) {
        Ok(None) => Ok(link),
        Ok(Some(fault)) => Err(fault),
        Err(_memory) => {
            out.truncate(end);
            Err(RelayFault::Memory)
        }
    }
}
