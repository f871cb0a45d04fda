//! What a caller sees of a relay, without a lemma.

ghost use Rattle.std.specs.Prelude.{◌≡◌, ◌≢◌, IfOk, OnOk};
ghost use Rattle.secret_relay.specs.Standing.{Adds, HasEnded, Stands};
ghost use Rattle.secret_relay.specs.Stories.{Relayed, Story, nothing, with_down, with_up};
ghost use Rattle.secret_relay.specs.declared.fault.RelayFault.TheVariants as faults;
ghost use Rattle.transport.specs.declared.form.Form.TheVariants.{Full};

use crate::captures::{SECRET, start};
use obfus::Tag;
use octets::Octets;
use secret_relay::laws::written_by_the_relay;
use secret_relay::{Form, Relay, RelayFault};
use std::alloc::Global;
use std::test::*;

// The first piece of a connection.
fn first_piece(
    alloc: Global,
    form: Form,
    secret: &[u8; 16],
    piece: &[u8],
    out: &mut Octets,
) -> Result<Relay, RelayFault>
    requires { form ≢ Full }
    ensures stands { IfOk result (λ relay. Adds out.old out.new (λ more. Stands relay (with_up piece.now more nothing))) }
{
    let mut relay = Relay::new(form, secret);
    relay.up(alloc, piece, out)?;
    Ok(relay)
}

// A piece more of each side.
fn one_of_each(
    alloc: Global,
    relay: &mut Relay,
    up: &[u8],
    down: &[u8],
    upwards: &mut Octets,
    downwards: &mut Octets,
) -> Result<(), RelayFault>
    ensures { OnOk result ((story : Story) → Stands relay.old story
        → Adds upwards.old upwards.new (λ one. Adds downwards.old downwards.new (λ other.
        Relayed relay.new.form relay.new.secret (with_down down.now other (with_up up.now one story))))) }
{
    written_by_the_relay();
    relay.up(alloc, up, upwards)?;
    relay.down(alloc, down, downwards)
}

// Nothing comes of a relay that has ended.
fn stays_ended(alloc: Global, relay: &mut Relay, piece: &[u8], out: &mut Octets) -> bool
    requires { HasEnded (faults.Length 8) relay.old }
    ensures { (relay.new ≡ relay.old) × (out.new ≡ out.old) }
{
    let up = relay.up(alloc, piece, out);
    let down = relay.down(alloc, piece, out);
    up == down
}
