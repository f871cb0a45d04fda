//! The inbox of a server session.

ghost use Rattle.std.specs.Prelude.{◌≡◌, ◌≤◌, [], true, false, None, IfOk, IfSome, OnOk, OnErr, Some, map, slice_get};
ghost use Rattle.inbox.specs.States.{state_by, state_of_mark};

use crate::draft::drafts_of;
use crate::judged::Judged;
use crate::received::Received;
use crate::refusal::by_envelope;
use crate::settling::{settle, settle_inner};
use id_window::laws::room_counts_nothing;
use id_window::{Mark, Window};
use msg_ids::Moment;
use octets::{IdList, Memory, Octets};
use salt_line::SaltLine;
use std::alloc::Global;
use std::marker::Model;

/// What a server session remembers of the messages that came: its window, and whether it ever accepted one.
#[derive(Debug, Drop)]
pub struct Inbox {
    window: Window,
    heard: bool,
}

impl Model for Inbox {
    ghost use Rattle.inbox.specs.Inbox.{Kept, without_room};

    ghost Value = { Kept };

    ghost view = { λ inbox. record { window = without_room inbox.window; heard = inbox.heard } };
}

impl Inbox {
    ghost use Rattle.salt_line.specs.Line.{Line, Stands as LineStands};
    ghost use Rattle.id_window.specs.Marks.{Marks, is_accepted, given};
    ghost use Rattle.id_window.specs.History.{History, found, floor};
    ghost use Rattle.id_window.specs.Window.{mark_in};
    ghost use Rattle.inbox.specs.Refusals.{InEnvelope};
    ghost use Rattle.inbox.specs.Judging.{Session, judgements, session_after};
    ghost use Rattle.inbox.specs.Inbox.{Stands, Remembers, message_in, was_heard};
    ghost use Rattle.inbox.specs.States.{state_byte};
    ghost use Rattle.inbox.specs.Acceptance.{IsAcceptable, acceptance_of};
    ghost use Rattle.inbox.specs.Verdicts.{bare_judgement};

    /// An inbox to which no message came.
    ///
    /// # Errors
    ///
    /// `Memory`.
    pub fn new(alloc: Global) -> Result<Inbox, Memory>
        ensures { IfOk result (λ inbox. Stands inbox [] []) }
    {
        Ok(Inbox {
            window: Window::new(alloc)?,
            heard: false,
        })
    }

    /// Judges a message that an envelope brought at this moment to a session with this line of salts, and where it is
    /// accepted the messages inside it. Each that is new and above the floor is remembered. All memory is taken before
    /// the first one is.
    ///
    /// # Errors
    ///
    /// `Memory`, and then the inbox is as it was.
    pub fn judge(
        &mut self,
        alloc: Global,
        now: Moment,
        line: &SaltLine,
        outer: &Received<'_>,
    ) -> Result<Judged, Memory>
        requires { line.now.latest ≤ now }
        ensures judged { (session : Session) (salts : Line) → Remembers self.old session → LineStands line.now salts
            → IfOk result (λ judged. judged ≡ map bare_judgement (judgements (InEnvelope now salts outer.now.salt) session (message_in outer.now))) }
        ensures recorded { (session : Session) (salts : Line) → Remembers self.old session → LineStands line.now salts
            → OnOk result (Remembers self.new (session_after (InEnvelope now salts outer.now.salt) session (message_in outer.now))) }

        // A message that nothing refuses is accepted.
        ensures accepts { (session : Session) (salts : Line) → Remembers self.old session → LineStands line.now salts
            → IsAcceptable now salts outer.now.salt session (message_in outer.now)
            → IfOk result (λ judged. slice_get judged 0 ≡ Some (bare_judgement (acceptance_of (message_in outer.now)))) }
        ensures unchanged_on_memory { OnErr result (self.new ≡ self.old) }
    {
        room_counts_nothing();
        let envelope = by_envelope(now, line, outer.message.number, outer.message.salt);
        let is_new = self.window.find(outer.message.number).is_none();
        let (message, inner) = drafts_of(alloc, outer, is_new)?;
        let mut judgements = Vec::with_capacity(alloc, 1 + inner.len())?;
        self.window.reserve(alloc, 1 + inner.len())?;
        let judgement = settle(&mut self.window, envelope, message);
        let accepted = judgement.verdict.is_accepted();
        judgements.push_reserved(judgement);
        if !accepted {
            return Ok(Judged { judgements });
        }
        self.heard = true;
        settle_inner(&mut self.window, inner, &mut judgements);
        Ok(Judged { judgements })
    }

    /// Gives another mark to the number of an accepted message. Where the number isn't kept, nothing changes. Takes no
    /// memory.
    pub fn set_mark(&mut self, number: u64, mark: Mark)
        requires accepted { is_accepted mark ≡ true }
        requires was_accepted { IfSome (mark_in number self.old.window.rows) (λ last. is_accepted last ≡ true) }
        ensures stands { (history : History) (marks : Marks) → Stands self.old history marks → Stands self.new history (given number mark marks) }
        ensures unchanged { mark_in number self.old.window.rows ≡ None → self.new ≡ self.old }
    {
        room_counts_nothing();
        self.window.set(number, mark);
    }

    /// The mark of a number; none where the number isn't kept.
    pub fn mark(&self, number: u64) -> Option<Mark>
        ensures value { result ≡ mark_in number self.now.window.rows }
        ensures stands { (history : History) (marks : Marks) → Stands self.now history marks → result ≡ found number history marks }
    {
        room_counts_nothing();
        self.window.find(number)
    }

    /// The greatest number that is forgotten, or 0: no message at or below it is ever accepted again.
    pub fn floor(&self) -> u64
        ensures value { result ≡ self.now.window.floor }
        ensures stands { (history : History) (marks : Marks) → Stands self.now history marks → result ≡ floor history }
    {
        room_counts_nothing();
        self.window.floor()
    }

    /// Whether a message was ever accepted.
    pub fn heard(&self) -> bool
        ensures value { result ≡ self.now.heard }
        ensures stands { (history : History) (marks : Marks) → Stands self.now history marks → result ≡ was_heard history }
    {
        self.heard
    }

    /// A byte for each of these numbers: how far its message is.
    ///
    /// # Errors
    ///
    /// `Memory`.
    pub fn states(&self, alloc: Global, ids: &IdList) -> Result<Octets, Memory>
        ensures { (history : History) (marks : Marks) → Stands self.now history marks
            → IfOk result (λ states. states ≡ map (state_byte history marks) ids.now) }
    {
        let mut states = Vec::with_capacity(alloc, ids.ids().len())?;
        for id in ids.ids() {
            states.push(self.state(*id))?;
        }
        Ok(Octets::from(states))
    }

    /// The byte for one number: how far its message is
    /// (core.telegram.org/mtproto/service_messages_about_messages, "Informational Message regarding Status of Messages").
    /// Takes no memory.
    pub fn state(&self, number: u64) -> u8
        ensures { (history : History) (marks : Marks) → Stands self.now history marks → result ≡ state_byte history marks number }
    {
        room_counts_nothing();
        state_by(
            self.window.find(number),
            self.window.floor(),
            self.window.greatest(),
            number,
        )
    }

    /// The same inbox once more.
    ///
    /// # Errors
    ///
    /// `Memory`.
    pub fn copy(&self, alloc: Global) -> Result<Inbox, Memory>
        ensures { IfOk result (λ inbox. inbox ≡ self.now) }
    {
        Ok(Inbox {
            window: self.window.copy(alloc)?,
            heard: self.heard,
        })
    }
}

/// The state byte of a number with this mark, in a window of this floor and this greatest number.
fn state_by(mark: Option<Mark>, floor: u64, greatest: u64, number: u64) -> u8
    ensures { result ≡ state_by mark floor greatest number }
{
    match mark {
        Some(mark) => state_of_mark(mark),
        None => {
            if number <= floor {
                return 1;
            }
            if number <= greatest { 2 } else { 3 }
        }
    }
}

fn state_of_mark(mark: Mark) -> u8
    ensures { result ≡ state_of_mark mark }
{
    match mark {
        Mark::Waiting => 36,
        Mark::Replied(_) | Mark::Acked(_) | Mark::Dropped(_) => 100,
        _ => 4,
    }
}
