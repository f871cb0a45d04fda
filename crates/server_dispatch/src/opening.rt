//! What a session owes first to a packet.

ghost use Rattle.std.specs.Prelude.{◌≡◌, ◌==◌, ◌≤◌, ◌<◌, ◌+◌, if◌then◌else◌, ℕ, List, [], length, map, vec_len, vec_capacity};
ghost use Rattle.std.specs.List.{AllByRecursion, list_any};
ghost use Rattle.inbox.specs.Verdicts.{Judgement as Told, bare_judgement};
ghost use Rattle.waits.specs.Jobs.{Queue};
ghost use Rattle.server_rules.specs.Answer.{opens};
ghost use Rattle.server_rules.specs.Event.{Speaker};
ghost use Rattle.server_rules.specs.Rows.{acks_of, is_mark_acked};
ghost use Rattle.server_rules.specs.Server.{Binding, has_accepted};
ghost use Rattle.server_rules.specs.Speaking.{says_it_is_new};
ghost use Rattle.server_output.specs.Items.{acks_bytes, ids_max, new_session_bytes};
ghost use Rattle.server_session.specs.SessionState.{IsAt, outbox_of};
ghost use Rattle.server_session.specs.Says.{Keys, setting_of};
ghost use Rattle.server_session.specs.Unsaid.{NoMoreUnsaid};
ghost use Rattle.server_dispatch.specs.Acks.{is_acked, is_bare_acked, noted};
ghost use Rattle.server_dispatch.specs.Speaks.{HasRoom, Speaks, Spends};

use crate::calls::has;
use crate::turn::Turn;
use draws::Draw;
use inbox::{Judgement, Mark, Verdict};
use msg_ids::Moment;
use server_session::SessionState;

/// Writes the numbers that a session acknowledges of what it judged into an empty list with room for them: of messages of odd
/// sequence number that were accepted, now or before, each once and in order of judging. Takes no memory.
pub fn acks_in(judged: &[Judgement], acks: &mut Vec<u64>)
    requires empty { acks.old.items ≡ [] }
    requires room { length judged.now ≤ vec_capacity acks.old }
    ensures acks { (told : List Told) → judged.now ≡ map bare_judgement told → acks.new.items ≡ acks_of told }
    ensures few { length acks.new.items ≤ length judged.now }
    ensures same_capacity { vec_capacity acks.new ≡ vec_capacity acks.old }
{
    let mut greatest = 0;
    for judgement in judged {
        greatest = note(acks, greatest, judgement);
    }
}

// Puts the number of a judgement behind these, of which none is above the given one, where it is acknowledged and isn't among
// them. Gives a number that none of them is above then. The number of a container, which comes before its messages' and is
// above them, isn't acknowledged, so it doesn't count here.
fn note(acks: &mut Vec<u64>, greatest: u64, judgement: &Judgement) -> u64
    requires room { vec_len acks.old < vec_capacity acks.old }
    requires below { AllByRecursion (λ number. number ≤ greatest) acks.old.items }
    ensures noted { acks.new.items ≡ noted acks.old.items judgement.now }
    ensures below { AllByRecursion (λ number. number ≤ result) acks.new.items }
    ensures len { vec_len acks.new ≤ vec_len acks.old + 1 }
    ensures same_capacity { vec_capacity acks.new ≡ vec_capacity acks.old }
{
    if !is_acked(judgement) {
        return greatest;
    }
    if !is_among(acks.as_slice(), greatest, judgement.number) {
        acks.push_reserved(judgement.number);
    }
    greatest.max(judgement.number)
}

// Whether this number is among these, of which none is above the given one. Numbers mostly come in order, and one above all of
// them isn't looked for.
#[tactic(auto, using(crate::proofs::Once::above_absent))]
fn is_among(numbers: &[u64], greatest: u64, number: u64) -> bool
    requires below { AllByRecursion (λ one. one ≤ greatest) numbers.now }
    ensures { result ≡ list_any (λ other. other == number) numbers.now }
{
    if number > greatest {
        return false;
    }
    has(numbers, number)
}

#[tactic(auto, unfolding(crate::specs::Acks::is_acked))]
fn is_acked(judgement: &Judgement) -> bool
    ensures { result ≡ is_acked judgement.now }
{
    judgement.seq % 2 == 1 && is_verdict_acked(&judgement.verdict)
}

fn is_verdict_acked(verdict: &Verdict) -> bool
    ensures { result ≡ is_bare_acked verdict.now }
{
    match verdict {
        Verdict::Accepted => true,
        Verdict::Again(mark) => is_mark_acked(*mark),
        Verdict::Noticed(_) => false,
    }
}

fn is_mark_acked(mark: Mark) -> bool
    ensures { result ≡ is_mark_acked mark }
{
    matches!(
        mark,
        Mark::Service | Mark::Waiting | Mark::Replied(_) | Mark::Acked(_)
    )
}

impl Turn {
    /// What the session owes first to a packet that it has judged: it says that it is new where it has accepted nothing so
    /// far, and then which messages it received, given by `acks_in`.
    pub fn opens<D: Draw>(
        &mut self,
        now: Moment,
        standing: &mut SessionState,
        draw: &mut D,
        acks: &[u64],
    )
        requires few { length acks.now ≤ ids_max }
        requires room { HasRoom 2 (new_session_bytes + acks_bytes (length acks.now)) 0 standing.old self.old }
        requires at { IsAt now standing.old }
        ensures speaks { (keys : Keys) (jobs : Queue) (bindings : List Binding) (speaker : Speaker D) (judged : List Told) → acks.now ≡ acks_of judged
            → Speaks now standing.old self.old jobs bindings draw.old speaker
            → Speaks now standing.new self.new jobs bindings draw.new (opens (setting_of now D.step keys) speaker.session.history judged speaker) }
        ensures spends { Spends now 2 (new_session_bytes + acks_bytes (length acks.now)) 0 standing.old self.old standing.new self.new }
        ensures unsaid { NoMoreUnsaid standing.old self.old.owing standing.new self.new.owing }
        ensures same_replies { outbox_of standing.new ≡ outbox_of standing.old }
    {
        self.greets(now, standing, draw);
        self.acknowledges::<D>(now, standing, acks);
    }

    // The session says that it is new where it has accepted nothing so far.
    fn greets<D: Draw>(&mut self, now: Moment, standing: &mut SessionState, draw: &mut D)
        requires room { HasRoom 1 new_session_bytes 0 standing.old self.old }
        requires at { IsAt now standing.old }
        ensures speaks { (keys : Keys) (jobs : Queue) (bindings : List Binding) (speaker : Speaker D) → Speaks now standing.old self.old jobs bindings draw.old speaker
            → Speaks now standing.new self.new jobs bindings draw.new (if has_accepted speaker.session then speaker else says_it_is_new (setting_of now D.step keys) speaker) }
        ensures spends { Spends now 1 new_session_bytes 0 standing.old self.old standing.new self.new }
        ensures unsaid { NoMoreUnsaid standing.old self.old.owing standing.new self.new.owing }
        ensures same_replies { outbox_of standing.new ≡ outbox_of standing.old }
    {
        if standing.is_new() {
            self.says_it_is_new(now, standing, draw);
        }
    }
}
