//! Laws of runs that are joint, each the contract of a function that does nothing.

ghost use Rattle.std.specs.Prelude.{◌≡◌, ◌≢◌, ℕ, List, [], ◌∷◌, Some};
ghost use Rattle.auth_keys.specs.declared.ring.RingKey.{RingKey};
ghost use Rattle.call_script.specs.Scripts.{Spells};
ghost use Rattle.call_script.specs.declared.script.ScriptCall.{ScriptCall};
ghost use Rattle.client_core.specs.Keys.{Keys};
ghost use Rattle.cmd_call.specs.Keys.{keys_for};
ghost use Rattle.cmd_call.specs.Owed.{Around, Files, LeftBatch, RanBatch, begins};
ghost use Rattle.cmd_pair.specs.Batches.{OverBoth, OverOne};
ghost use Rattle.cmd_pair.specs.Checks.{IsReady};
ghost use Rattle.cmd_pair.specs.Servers.{Kids};
ghost use Rattle.cmd_serve.specs.Runs.{Course, Draws, IsBroken, Moments, ServesBy, first_of};
ghost use Rattle.commands.specs.declared.command.CallOptions.{CallOptions};
ghost use Rattle.commands.specs.declared.command.PairOptions.{PairOptions};
ghost use Rattle.commands.specs.declared.command.ServeOptions.{ServeOptions};
ghost use Rattle.envelope.specs.Lock.{mt_lock};
ghost use Rattle.statuses.specs.Outside.{Outside};
ghost use Rattle.statuses.specs.declared.status.Status.{Status};
ghost use Rattle.world_rules.specs.Premises.{Fresh, IsSealed, IsSound};
ghost use Rattle.world_rules.specs.Once.{InOrder, Once};
ghost use Rattle.law_connections.specs.Joint.{Step, joint_of, nobody_yet};
ghost use Rattle.law_connections.specs.Premises.{AreOf, NoChance};
ghost use Rattle.law_runs.specs.Joining.{AreJoint, AreLeft, AreTimely, AreWhole, AreWords, Called, IsServerLeft, IsServing, Served, connections_in, left_by, ring_in, setting_under, start_by};
ghost use Rattle.law_runs.specs.Told.{IsCall, acts_told, batch_last, batch_left, batch_lost, batch_ran};

use draws::Draw;
use envelope::MtSeal;
use regs_service::Regs;

/// What `ServeRun.serves` tells of a run without a journal that served connections, and what `CallRun.told` tells of a batch that was run,
/// or left where memory ran out, or `PairRun.told` of its one or two batches, is a run of `serve`, and one of a client, as joint runs have
/// them: with the events of the trace that is told, and with the batches and their attempts, and the client whose table was told, where
/// one was. The two servers of `pair` are runs of `serve` of their own, of which it tells that they were started, one behind the other,
/// with its key file.
pub fn runs_are_told<D: Draw, S, F, N, C, P>()
    ensures serves { (step : D → ℕ × D) (options : ServeOptions) (moments : Moments) (draws : Draws D) (course : Course D) → (served : ServesBy step options moments draws course)
        → (IsBroken course → ⊥) → IsServing course
        → (run : Served step (ring_in course)) × (run.first ≡ first_of options moments draws.before) × (run.connections ≡ connections_in course)
        × ((start_by run).acts ≡ acts_told step options moments draws course served) }
    ensures calls { (options : CallOptions) (text : List ℕ) (calls : List ScriptCall) (ring : List RingKey) (keys : Keys) (around : Around N C D) (one : Status) (due : List ℕ) → Spells text calls
        → keys_for ring options.key options.perm ≡ Some keys → (ran : RanBatch options calls ring keys around one due)
        → (run : Called around.step) × IsCall run calls ring keys around × (run.batches ≡ batch_ran ran ∷ []) × (left_by run ≡ ran.left) }
    ensures left { (options : CallOptions) (text : List ℕ) (calls : List ScriptCall) (ring : List RingKey) (keys : Keys) (around : Around N C D) → Spells text calls
        → keys_for ring options.key options.perm ≡ Some keys → (left : LeftBatch options calls ring keys around)
        → (run : Called around.step) × IsCall run calls ring keys around × (run.batches ≡ batch_left left ∷ []) }
    ensures over_one { (options : PairOptions) (input : Outside S) (files : Files F) (calls : List ScriptCall) (ring : List RingKey) (keys : Keys) (around : Around N C D) (kids : Kids P) (one : Status) (due : List ℕ)
        → IsReady options input files calls ring keys → (ran : OverOne options ring (begins keys calls around) around kids one due)
        → (run : Called around.step) × IsCall run calls ring keys around × (run.batches ≡ batch_last ran.last ∷ []) × (left_by run ≡ ran.last.left) }
    ensures over_both { (options : PairOptions) (input : Outside S) (files : Files F) (calls : List ScriptCall) (ring : List RingKey) (keys : Keys) (around : Around N C D) (kids : Kids P) (one : Status) (due : List ℕ)
        → IsReady options input files calls ring keys → (ran : OverBoth options ring (begins keys calls around) around kids one due)
        → (run : Called around.step) × IsCall run calls ring keys around × (run.batches ≡ batch_last ran.last ∷ batch_lost ran.first ∷ []) × (left_by run ≡ ran.last.left) }
{}

/// The setting of joint runs seals and opens as the protocol's seal does under the ring.
pub fn settings_seal<D: Draw>()
    ensures { (step : D → ℕ × D) (ring : List RingKey) → IsSealed mt_lock ring (setting_under step ring) }
{
    ring_rules::laws::packets_open_as_worked_out();
}

/// It is one of a world, where the ring has a key and words have 64 bits.
pub fn settings_are_sound<D: Draw>()
    ensures { (step : D → ℕ × D) (ring : List RingKey) → ring ≢ [] → AreWords step → IsSound ring (setting_under step ring) }
{
    octets::laws::bytes_stay_bytes();
    law_packets::bytes::bindings_are_bytes();
    law_packets::laws::registers_give_replies();
}

/// The clients of joint runs are under keys of the server's ring, and the bodies of their calls are bytes.
pub fn runs_are_of_the_ring<D: Draw>()
    ensures { (step : D → ℕ × D) (ring : List RingKey) (draw : D) (served : List (Served step ring)) (called : List (Called step)) (steps : List (Step D))
        → AreJoint step ring draw served called steps → AreOf ring (setting_under step ring) (nobody_yet (setting_under step ring) draw) steps }
{
    law_packets::bytes::bodies_are_bytes();
}

/// The clients of a joint run, none of whose processes was stopped from outside, are those that the runs of `call` and `pair` left: the
/// calls of each are those of its table.
pub fn clients_are_left<D: Draw>()
    ensures { (step : D → ℕ × D) (ring : List RingKey) (draw : D) (served : List (Served step ring)) (called : List (Called step)) (steps : List (Step D))
        → AreJoint step ring draw served called steps → AreWhole draw served called steps → AreTimely served called → AreLeft called (joint_of (setting_under step ring) draw steps).world.seats }
{}

/// The server of such a joint run, with its service, is the one that the last run of `serve` left.
pub fn servers_are_left<D: Draw>()
    ensures { (step : D → ℕ × D) (ring : List RingKey) (draw : D) (served : List (Served step ring)) (called : List (Called step)) (steps : List (Step D))
        → AreWhole draw served called steps → AreTimely served called → IsServerLeft served (joint_of (setting_under step ring) draw steps).world }
{}

/// Of runs of `serve`, one after the other and all with one key file, and of runs of `call` and `pair`, each with a key file of its own
/// that has the keys under which its client acts as the server's has them, that are one joint run (`AreJoint`), each call executes at
/// most once, as its client sent it, and what the client of the joint run holds of it is so; and calls run in order. The premises: the
/// server's key file has a key; words that are drawn have 64 bits; bytes that open at an end were sealed by the other in that direction
/// (`NoChance`), so the joint run has all that was ever done under these keys; words drawn for session numbers, unique numbers and
/// salts aren't 0 and differ, whichever process drew them (`Fresh`). A process may be stopped from outside: then its part is a front of
/// what some run would have told; that it is one is a premise. Where none was (`AreWhole`) and no moment is past the latest
/// (`AreTimely`), the clients of which this is said are those that their runs left, the server the one that the last run of `serve`
/// left.
pub fn runs_execute_once<D: Draw>()
    ensures once { (step : D → ℕ × D) (ring : List RingKey) (draw : D) (served : List (Served step ring)) (called : List (Called step)) (steps : List (Step D))
        → AreJoint step ring draw served called steps → ring ≢ [] → AreWords step
        → NoChance (setting_under step ring) (nobody_yet (setting_under step ring) draw) steps → Fresh (joint_of (setting_under step ring) draw steps).world
        → Once (setting_under step ring) (joint_of (setting_under step ring) draw steps).world }
    ensures in_order { (step : D → ℕ × D) (ring : List RingKey) (draw : D) (served : List (Served step ring)) (called : List (Called step)) (steps : List (Step D))
        → AreJoint step ring draw served called steps → ring ≢ [] → AreWords step
        → NoChance (setting_under step ring) (nobody_yet (setting_under step ring) draw) steps → Fresh (joint_of (setting_under step ring) draw steps).world
        → InOrder (joint_of (setting_under step ring) draw steps).world }
    ensures clients { (step : D → ℕ × D) (ring : List RingKey) (draw : D) (served : List (Served step ring)) (called : List (Called step)) (steps : List (Step D))
        → AreJoint step ring draw served called steps → AreWhole draw served called steps → AreTimely served called → AreLeft called (joint_of (setting_under step ring) draw steps).world.seats }
    ensures server { (step : D → ℕ × D) (ring : List RingKey) (draw : D) (served : List (Served step ring)) (called : List (Called step)) (steps : List (Step D))
        → AreWhole draw served called steps → AreTimely served called → IsServerLeft served (joint_of (setting_under step ring) draw steps).world }
{
    settings_seal::<D>();
    settings_are_sound::<D>();
    runs_are_of_the_ring::<D>();
    clients_are_left::<D>();
    servers_are_left::<D>();
    envelope::laws::opens_what_it_sealed::<MtSeal>();
    envelope::laws::locks_keep_sizes();
    law_connections::laws::connections_execute_once::<D, Regs>();
}
