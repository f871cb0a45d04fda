//! What the proofs of a desk's calls begin with.

ghost use Rattle.std.specs.Prelude.{◌≤◌, ℕ, List};
ghost use Rattle.msg_ids.specs.Moments.{latest_moment};
ghost use Rattle.sess_records.specs.declared.records.Record.{Record};
ghost use Rattle.server_rules.specs.Server.{Server as Rules};
ghost use Rattle.sess_journal.specs.Keeping.{HasBegun, KeepsFor, Seen};
ghost use Rattle.sess_journal.specs.Staging.{RunStage, Stage};
ghost use Rattle.sess_journal.specs.Replay.{bases_of};

use disks::Disk;
use disks::laws::{crashes_after_a_sync, crashes_by_acts};
use draws::Seeded;
use draws::laws::seeded_draws_go_on;
use envelope::Seal;
use msg_ids::Moment;
use sess_records::laws::calls_in_a_row;

// What each event begins with.
pub(crate) fn events_begin<K: Disk, S: Seal, D: Seeded>()
    ensures at { (entries : List Record) (desk : Seen K S D) (server : Rules) (moment : ℕ) → KeepsFor (bases_of S.lock S.keys D.step D.standing_at D.place_of) K.told entries desk server
        → moment ≤ latest_moment → Stage (bases_of S.lock S.keys D.step D.standing_at D.place_of) K.told entries desk server moment }
    ensures begun { (entries : List Record) (job : ℕ) (desk : Seen K S D) (server : Rules) (moment : ℕ) → HasBegun (bases_of S.lock S.keys D.step D.standing_at D.place_of) K.told entries job desk server
        → moment ≤ latest_moment → RunStage (bases_of S.lock S.keys D.step D.standing_at D.place_of) K.told entries job desk server moment }
{
    crashes_by_acts();
    crashes_after_a_sync();
    calls_in_a_row();
    seeded_draws_go_on::<D>();
}

// A moment is at most the latest one.
pub(crate) fn is_early(now: Moment)
    ensures { now ≤ latest_moment }
{
    let _ = now.seconds();
}
