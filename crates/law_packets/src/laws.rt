//! Laws of the packets of worlds, each the contract of a function that does nothing.

ghost use Rattle.std.specs.Prelude.{ℕ, List};
ghost use Rattle.octets.specs.Bytes.{IsBytes};
ghost use Rattle.regs_service.specs.Registers.{Sums, step};
ghost use Rattle.regs_service.specs.Served.{IsReply};
ghost use Rattle.std.specs.List.{All};
ghost use Rattle.auth_keys.specs.declared.ring.RingKey.{RingKey};
ghost use Rattle.envelope.specs.Packet.{Lock};
ghost use Rattle.envelope.specs.Sizes.{KeepsSizes};
ghost use Rattle.sched_text.specs.declared.event.Event.{Event};
ghost use Rattle.server_rules.specs.Events.{Attach};
ghost use Rattle.server_rules.specs.Server.{Name};
ghost use Rattle.law_packets.specs.Lawful.{AreLawfulPackets, IsSteady};
ghost use Rattle.world_rules.specs.Ends.{serves};
ghost use Rattle.world_rules.specs.Premises.{IsOfBytes, IsSealed, IsSound};
ghost use Rattle.world_rules.specs.Run.{after, run_of, run_of_any};
ghost use Rattle.world_rules.specs.Setting.{Setting};
ghost use Rattle.world_rules.specs.World.{World, begins};

use draws::Draw;

/// Each packet of a world may be sealed, over every schedule, and wherever foreign bytes that open are taken like packets. The
/// premises: the lock keeps sizes; the setting seals and opens under the ring; its keys are in the ring, its words have 64 bits,
/// its service's replies are whole words of bytes and short, and binding messages are bytes; and so are the bodies of calls. A world
/// stays steady too where the server attaches a session of any name.
pub fn packets_of_worlds_are_lawful<D: Draw, V>()
    ensures begins { (lock : Lock) (ring : List RingKey) (setting : Setting D V) (draw : D) → IsSteady lock ring setting (begins setting draw) }
    ensures event { (lock : Lock) (ring : List RingKey) (setting : Setting D V) (world : World D V) (event : Event) → KeepsSizes lock
        → IsSealed lock ring setting → IsSound ring setting → IsOfBytes event → IsSteady lock ring setting world
        → IsSteady lock ring setting (after setting world event) }
    ensures attach { (lock : Lock) (ring : List RingKey) (setting : Setting D V) (world : World D V) (name : Name) → KeepsSizes lock
        → IsSealed lock ring setting → IsSound ring setting → IsSteady lock ring setting world
        → IsSteady lock ring setting (serves setting (Attach world.clock name) world) }
    ensures schedule { (lock : Lock) (ring : List RingKey) (setting : Setting D V) (draw : D) (events : List Event) → KeepsSizes lock
        → IsSealed lock ring setting → IsSound ring setting → All IsOfBytes events → AreLawfulPackets lock ring setting (run_of setting draw events) }
    ensures any { (lock : Lock) (ring : List RingKey) (setting : Setting D V) (draw : D) (events : List Event) → KeepsSizes lock
        → IsSealed lock ring setting → IsSound ring setting → All IsOfBytes events → AreLawfulPackets lock ring setting (run_of_any setting draw events) }
{
    auth_keys::laws::one_key_of_an_identifier();
    auth_keys::laws::identifiers_are_longs();
    envelope::laws::lawful_parts_are_sealed();
    crate::client_laws::packets_may_be_sealed::<D>();
    law_server_bounds::laws::packets_may_be_sealed::<D, V>();
}

/// The registers are a service of a sound setting: each of their replies is whole words of bytes, and short.
pub fn registers_give_replies()
    ensures { (sums : Sums) (request : List ℕ) → IsReply (step sums request).0 × IsBytes (step sums request).0 }
{}
