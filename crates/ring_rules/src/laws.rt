//! Laws of what is worked out, each the contract of a function that does nothing.

ghost use Rattle.std.specs.Prelude.{◌≡◌, ◌↔◌, ℕ, List, Some};
ghost use Rattle.auth_keys.specs.declared.ring.RingKey.{RingKey};
ghost use Rattle.envelope.specs.declared.parts.Dir.{Dir};
ghost use Rattle.envelope.specs.declared.parts.Envelope.{Envelope};
ghost use Rattle.envelope.specs.Lock.{clear_lock, mt_lock};
ghost use Rattle.envelope.specs.Opening.{Opens};
ghost use Rattle.server_dispatch.specs.Rings.{AreOf};
ghost use Rattle.ring_rules.specs.Binding.{keys_of};
ghost use Rattle.ring_rules.specs.Opening.{opened};

use crate::below::seal_laws;
use envelope::laws::sealed_packets_are_read_back;
use temp_keys::laws::{made_messages_bind, one_answer};

/// What is worked out of a packet is what it opens to, under the lock of the protocol and under the one without a cipher.
pub fn packets_open_as_worked_out()
    ensures of_the_protocol { (ring : List RingKey) (now : ℕ) (dir : Dir) (packet : List ℕ) (envelope : Envelope)
        → (opened mt_lock ring now dir packet ≡ Some envelope ↔ Opens mt_lock ring now dir packet envelope) }
    ensures clear { (ring : List RingKey) (now : ℕ) (dir : Dir) (packet : List ℕ) (envelope : Envelope)
        → (opened clear_lock ring now dir packet ≡ Some envelope ↔ Opens clear_lock ring now dir packet envelope) }
{
    sealed_packets_are_read_back();
}

/// Each ring has its keys: which are temporary, and what a binding call binds by it.
pub fn rings_have_keys()
    ensures { (ring : List RingKey) → AreOf ring (keys_of ring) }
{
    seal_laws();
    made_messages_bind();
    one_answer();
}
