//! Laws of what is worked out, each the contract of a function that does nothing.

ghost use Rattle.std.specs.Prelude.{List};
ghost use Rattle.auth_keys.specs.declared.ring.RingKey.{RingKey};
ghost use Rattle.envelope.specs.Lock.{mt_lock};
ghost use Rattle.server_node.specs.Trace.{IsOutside};
ghost use Rattle.cmd_serve.specs.Packets.{outside_of};

use aes_core::laws::blocks_are_bytes;
use envelope::laws::whole_plain_texts_open;
use ring_rules::laws::{packets_open_as_worked_out, rings_have_keys};

/// What is worked out of a ring is what the ring says, under the lock of the protocol.
pub fn rings_say_as_worked_out()
    ensures { (ring : List RingKey) → IsOutside mt_lock ring (outside_of ring) }
{
    packets_open_as_worked_out();
    rings_have_keys();
    blocks_are_bytes();
    cipher_modes::laws::ige_enciphering_undoes_deciphering();
    msg_key::laws::keys_are_bytes();
    whole_plain_texts_open();
    octets::laws::counts_of_bytes();
    octets::laws::parts_are_bytes();
    octets::laws::bytes_stay_bytes();
}
