//! Laws of schedules with crashes, each the contract of a function that does nothing.

ghost use Rattle.std.specs.Prelude.{◌≡◌, List, Option, ℕ, codes};
ghost use Rattle.auth_keys.specs.declared.ring.RingKey.{RingKey};
ghost use Rattle.envelope.specs.Lawful.{OpensWhatItSealed};
ghost use Rattle.envelope.specs.Lock.{clear_lock};
ghost use Rattle.envelope.specs.Packet.{Lock};
ghost use Rattle.world_rules.specs.Setting.{Setting};
ghost use Rattle.world_rules.specs.Premises.{Fresh, IsSealed, IsSound};
ghost use Rattle.world_rules.specs.Once.{InOrder, Once};
ghost use Rattle.envelope.specs.Sizes.{KeepsSizes};
ghost use Rattle.law_once.specs.Standing.{HasMoves};
ghost use Rattle.law_crashes.specs.Crashes.{Crashes, Step, created, goes_on, living_of};
ghost use Rattle.law_crashes.specs.Reached.{IsOpened, IsReached, SeesRing, basis_of};
ghost use Rattle.law_crashes.specs.Records.{Call};
ghost use Rattle.law_connections.specs.Witness.{ring, setting as shown_setting};
ghost use Rattle.law_crashes.specs.Premises.{AreOf, NoChance};
ghost use Rattle.law_crashes.specs.Witness as shown;

use draws::{Draw, Seeded, StepDraw};
use octets::Octets;
use regs_service::Regs;

/// Over every schedule in which crashes cut a server with a journal off, each call executes at most once, as its client sent it,
/// and what is told of it is so; calls run in order; and what ran in each life of the service has the replies that the service
/// gives to these requests, one after the other, from its fresh state. A crash comes at any moment, inside a call too, and leaves
/// the records of all that was answered and the first ones of the call under way; then the server is opened again. The premises
/// are those of `connections_execute_once` of `law_connections`: `Fresh` speaks of words that clients drew and of those of events
/// of the server that are left, so the words of an event that a crash undid may be drawn again. Lawful moves lead to where such a
/// world stands.
pub fn crashes_execute_once<D: Draw, V>()
    ensures moves { (lock : Lock) (ring : List RingKey) (setting : Setting D V) (place_of : D → ℕ) (draw : D) (steps : List (Step D)) → OpensWhatItSealed lock
        → KeepsSizes lock → IsSealed lock ring setting → IsSound ring setting → AreOf ring setting place_of (created setting draw) steps
        → NoChance setting place_of (created setting draw) steps → Fresh (living_of setting place_of draw steps).joint.world
        → HasMoves (living_of setting place_of draw steps).joint.world }
    ensures once { (lock : Lock) (ring : List RingKey) (setting : Setting D V) (place_of : D → ℕ) (draw : D) (steps : List (Step D)) → OpensWhatItSealed lock
        → KeepsSizes lock → IsSealed lock ring setting → IsSound ring setting → AreOf ring setting place_of (created setting draw) steps
        → NoChance setting place_of (created setting draw) steps → Fresh (living_of setting place_of draw steps).joint.world
        → Once setting (living_of setting place_of draw steps).joint.world }
    ensures in_order { (lock : Lock) (ring : List RingKey) (setting : Setting D V) (place_of : D → ℕ) (draw : D) (steps : List (Step D)) → OpensWhatItSealed lock
        → KeepsSizes lock → IsSealed lock ring setting → IsSound ring setting → AreOf ring setting place_of (created setting draw) steps
        → NoChance setting place_of (created setting draw) steps → Fresh (living_of setting place_of draw steps).joint.world
        → InOrder (living_of setting place_of draw steps).joint.world }
{
    law_packets::laws::packets_of_worlds_are_lawful::<D, V>();
    law_once::laws::worlds_only_grow::<D, V>();
    law_once::laws::worlds_are_moves::<D, V>();
    law_once::laws::starts_are_served::<D, V>();
    law_once::laws::calls_execute_once::<D, V>();
    law_order::laws::worlds_keep_order::<D, V>();
    law_connections::laws::worlds_keep_what_holds::<D, V>();
}

/// Over every schedule with crashes, whatever comes and whatever words are drawn, the records of the journal are lawful one behind
/// the other, and lead to the server that stands: it is that one, but for a later moment, and draws the words of the journal's
/// seed from the place that is reached. Behind a crash, the server that was opened is the one that they lead to: the records from
/// before the crash and the first ones of the call under way, with a run that was cut off answered.
pub fn records_lead_to_the_server<D: Seeded, V>()
    ensures all { (lock : Lock) (ring : List RingKey) (seed : List ℕ) (setting : Setting D V) (steps : List (Step D)) → IsSealed lock ring setting
        → SeesRing D.step ring setting
        → IsReached (basis_of lock ring D.step (D.standing_at seed) D.place_of) (living_of setting D.place_of (D.standing_at seed 0) steps) }
    ensures opened { (lock : Lock) (ring : List RingKey) (seed : List ℕ) (setting : Setting D V) (steps : List (Step D)) (call : Option Call) (left now : ℕ)
        → IsSealed lock ring setting → SeesRing D.step ring setting
        → IsOpened (basis_of lock ring D.step (D.standing_at seed) D.place_of)
        (goes_on setting D.place_of (living_of setting D.place_of (D.standing_at seed 0) steps) (Crashes call left now)) }
{
    law_once::laws::worlds_only_grow::<D, V>();
    law_once::laws::starts_are_served::<D, V>();
    draws::laws::seeded_draws_go_on::<D>();
    sess_journal::laws::records_lead_to_one_server::<D>();
    law_server_replay::laws::events_draw_words::<D, Octets>();
    law_server_replay::laws::events_leave_room::<D, Octets>();
    law_server_replay::laws::quiet_events_change_nothing::<D>();
    law_connections::laws::worlds_keep_what_holds::<D, V>();
}

/// A schedule with crashes: one undoes a packet's event, whose words are drawn again then, and another one cuts a run off, so that
/// its call is told `RUN_INTERRUPTED` in the session that it began in. It meets every premise of the law but those of its seal,
/// which `a_joint_run` of `law_connections` meets with the same one; so the law says of it that each call executed at most once.
pub fn a_schedule_with_crashes()
    ensures told { shown.told shown.cut ≡ codes "call 1 1 done 5\ncall 1 2 done error 500 RUN_INTERRUPTED\nrun 2 1 12 5\nanswer 3 1 24 error 500 RUN_INTERRUPTED\n" }
    ensures of { AreOf ring shown_setting shown.place_of (created shown_setting 0) shown.cut }
    ensures chance { NoChance shown_setting shown.place_of (created shown_setting 0) shown.cut }
    ensures fresh { Fresh (living_of shown_setting shown.place_of 0 shown.cut).joint.world }
    ensures once { Once shown_setting (living_of shown_setting shown.place_of 0 shown.cut).joint.world }
    ensures in_order { InOrder (living_of shown_setting shown.place_of 0 shown.cut).joint.world }
{
    law_connections::laws::what_is_computed_holds::<Regs>();
    law_connections::laws::a_joint_run();
    crashes_execute_once::<StepDraw, Regs>();
}
