//! Judging of messages that are read: it takes no memory.

ghost use Rattle.std.specs.Prelude.{◌≡◌, ◌<◌, ◌≤◌, ◌+◌, ◌++◌, None, length, vec_len, vec_capacity};
ghost use Rattle.id_window.specs.Window.{Stands};
ghost use Rattle.inbox.specs.Judging.{Session, verdict_again, is_recorded};
ghost use Rattle.inbox.specs.Drafts.{draft_judgement, draft_session, draft_judgements, drafts_session, draft_verdict, drafted};
ghost use Rattle.inbox.specs.Verdicts.{bare};

use crate::draft::Draft;
use crate::judged::{Judgement, Verdict};
use crate::kind::Kind;
use crate::refusal::refusal;
use id_window::{Mark, Window};
use service_tl::codes::{CONTAINER_NUMBER_TAKEN, FORGOTTEN};

/// Judges a message, where this is the code by its envelope, and notes what is new.
pub(crate) fn settle(window: &mut Window, envelope: Option<u32>, draft: Draft) -> Judgement
    requires { 0 < window.old.room }
    ensures judged { (session : Session) → Stands window.old session.history session.marks → result ≡ draft_judgement envelope session draft }
    ensures stands { (session : Session) → Stands window.old session.history session.marks
        → Stands window.new (draft_session envelope session draft).history (draft_session envelope session draft).marks }
    ensures room { window.old.room ≤ window.new.room + 1 }
{
    let Draft { number, seq, kind } = draft;
    Judgement {
        number,
        seq,
        verdict: verdict_on(window, envelope, number, seq, kind),
    }
}

/// Finds the verdict on a message, and notes the message where it is new.
fn verdict_on(
    window: &mut Window,
    envelope: Option<u32>,
    number: u64,
    seq: u32,
    kind: Kind,
) -> Verdict
    requires { 0 < window.old.room }
    ensures judged { (session : Session) → Stands window.old session.history session.marks
        → result ≡ draft_verdict envelope session (drafted number seq kind) }
    ensures stands { (session : Session) → Stands window.old session.history session.marks
        → Stands window.new (draft_session envelope session (drafted number seq kind)).history (draft_session envelope session (drafted number seq kind)).marks }
    ensures room { window.old.room ≤ window.new.room + 1 }
{
    if let Some(mark) = window.find(number) {
        return verdict_again(kind, mark);
    }
    match refusal(window, envelope, number, seq, kind) {
        None => {
            window.note(number, seq, kind.first_mark());
            Verdict::Accepted
        }
        Some(code) => {
            if is_recorded(code) {
                window.note(number, seq, Mark::Noticed(code));
                return Verdict::Noticed(code);
            }
            Verdict::Noticed(code)
        }
    }
}

/// Whether a message that is refused with this code is remembered.
fn is_recorded(code: u32) -> bool
    ensures { result ≡ is_recorded code }
{
    code != CONTAINER_NUMBER_TAKEN && code != FORGOTTEN
}

fn verdict_again(kind: Kind, mark: Mark) -> Verdict
    ensures { result ≡ bare (verdict_again kind mark) }
{
    if kind.is_container() && !matches!(mark, Mark::Noticed(_) | Mark::Container) {
        return Verdict::Noticed(CONTAINER_NUMBER_TAKEN);
    }
    Verdict::Again(mark)
}

/// Judges the messages of a container in order.
pub(crate) fn settle_inner(window: &mut Window, drafts: Vec<Draft>, judgements: &mut Vec<Judgement>)
    requires room { vec_len drafts ≤ window.old.room }
    requires judgement_room { vec_len judgements.old + vec_len drafts ≤ vec_capacity judgements.old }
    ensures judged { (session : Session) → Stands window.old session.history session.marks
        → judgements.new.items ≡ judgements.old.items ++ draft_judgements session drafts.items }
    ensures stands { (session : Session) → Stands window.old session.history session.marks
        → Stands window.new (drafts_session session drafts.items).history (drafts_session session drafts.items).marks }
{
    for draft in drafts {
        judgements.push_reserved(settle(window, None, draft));
    }
}
