//! A session lets go of replies: of those that were acknowledged, and of one that is to be dropped
//! (core.telegram.org/mtproto/service_messages_about_messages, "Acknowledgment of Receipt";
//! core.telegram.org/mtproto/service_messages, "Cancellation of an RPC Query").

ghost use Rattle.std.specs.Prelude.{◌≡◌, ◌<◌, ◌≤◌, ◌+◌, ℕ, length, map, option_map};
ghost use Rattle.service_tl.specs.declared.item.Item.TheVariants.{RpcAnswerDropped};
ghost use Rattle.service_tl.specs.Items.{spelling_of};
ghost use Rattle.outbox.specs.Bodies.{short_bytes};
ghost use Rattle.server_output.specs.Items.{result_bytes};
ghost use Rattle.id_window.specs.History.{History, found};
ghost use Rattle.id_window.specs.Marks.{Marks};
ghost use Rattle.inbox.specs.Inbox.{Stands as InboxStands};
ghost use Rattle.server_output.specs.Dues.{Dues};
ghost use Rattle.law_server.specs.Order.{AreReplies, IsUnanswered};
ghost use Rattle.server_rules.specs.Event.{Speaker};
ghost use Rattle.server_rules.specs.Rows.{takes_acks};
ghost use Rattle.server_rules.specs.Speaking.{answers};
ghost use Rattle.server_rules.specs.Server.{Session, answered_mark};
ghost use Rattle.server_session.specs.Fates.{AreApart, fate_of, kept_to, refated, told_of, with_dropped, with_ended};

use crate::contents::result_head;
use crate::laws::replies_are_results;
use crate::session::SessionState;
use byteorder::{ByteOrder, LittleEndian};
use draws::Draw;
use id_window::laws::other_marks_count_nothing;
use inbox::{Inbox, Mark};
use msg_ids::Moment;
use outbox::{Body, SHORT_BYTES};
use server_output::OutgoingMessages;
use server_rules::laws::marks_follow_history;
use service_tl::RPC_ANSWER_DROPPED;

/// Where the number, the sequence number and the length stand in what tells of a dropped reply.
const NUMBER_AT: usize = 4;

const SEQ_AT: usize = 12;

const LENGTH_AT: usize = 16;

/// What is told of a reply that was dropped.
#[derive(Clone, Copy, Debug, PartialEq, Eq)]
pub struct DroppedReply {
    /// Its own message identifier.
    pub number: u64,
    /// Its own sequence number.
    pub seq: u32,
    /// How many bytes its body has.
    pub length: u32,
}

impl DroppedReply {
    /// What tells of it, an `rpc_answer_dropped`.
    pub fn content(&self) -> [u8; SHORT_BYTES]
        ensures { result ≡ spelling_of (RpcAnswerDropped self.now.number self.now.seq self.now.length) }
    {
        let mut content = [0; SHORT_BYTES];
        LittleEndian::write_u32(&mut content, RPC_ANSWER_DROPPED);
        LittleEndian::write_u64(&mut content[NUMBER_AT..], self.number);
        LittleEndian::write_u32(&mut content[SEQ_AT..], self.seq);
        LittleEndian::write_u32(&mut content[LENGTH_AT..], self.length);
        content
    }
}

/// What becomes of a reply that is kept no more.
#[derive(Clone, Copy)]
pub(crate) enum Ending {
    /// Its receipt was acknowledged.
    Acked,
    /// It was dropped without that.
    Dropped,
}

impl Ending {
    // The mark of its call.
    fn mark(self, good: bool) -> Mark
        ensures { result ≡ answered_mark good (fate_of self) }
    {
        match self {
            Ending::Acked => Mark::Acked(good),
            Ending::Dropped => Mark::Dropped(good),
        }
    }
}

// The reply to a call, where it was kept, is kept no more.
fn ends_call(inbox: &mut Inbox, call: u64, ending: Ending)
    ensures { (history : History) (marks : Marks) → InboxStands inbox.old history marks
        → InboxStands inbox.new history (with_ended call (fate_of ending) (found call history marks) marks) }
{
    match inbox.mark(call) {
        Some(Mark::Replied(good)) => inbox.set_mark(call, ending.mark(good)),
        _ => {}
    }
}

impl SessionState {
    ghost use Rattle.server_session.specs.Says.{Keys, Says, setting_of};
    ghost use Rattle.server_session.specs.SessionState.{IsAt, Stands, key_of, number_of, numbers_left, replies_left};
    ghost use Rattle.server_session.specs.Unsaid.{FewerKept, NoMoreUnsaid};

    /// Drops the kept reply to a call, and tells of it; none, and nothing changes, where none is kept. Takes no memory.
    pub fn drops_reply(&mut self, call: u64) -> Option<DroppedReply>
        ensures told { (now : ℕ) (session : Session) → Stands now self.old session
            → result ≡ option_map told_of (kept_to call session.replies) }
        ensures stands { (now : ℕ) (session : Session) → Stands now self.old session
            → AreReplies session.history session.replies session.counters.last
            → Stands now self.new (record session { replies = with_dropped (kept_to call session.replies) session.replies }) }
        ensures same_numbers { numbers_left self.new ≡ numbers_left self.old }
        ensures same_room { replies_left self.new ≡ replies_left self.old }
        ensures unsaid { (owing : Dues) → NoMoreUnsaid self.old owing self.new owing }
        ensures same_key { key_of self.new ≡ key_of self.old }
        ensures same_number { number_of self.new ≡ number_of self.old }
        ensures at { (now : ℕ) → IsAt now self.old → IsAt now self.new }
    {
        let kept = self.outbox.by_call(call)?;
        let dropped = DroppedReply {
            number: kept.number,
            seq: kept.seq,
            length: kept.body.len() as u32,
        };
        self.ends_reply(dropped.number, Ending::Dropped);
        Some(dropped)
    }

    /// Answers the request in this message by what was dropped, and keeps that answer, for which room is reserved. Takes no
    /// memory.
    pub fn answers_dropped<D: Draw>(
        &mut self,
        now: Moment,
        owing: &mut OutgoingMessages,
        request: u64,
        dropped: &DroppedReply,
    )
        requires place { 0 < owing.old.places }
        requires bytes { result_bytes short_bytes ≤ owing.old.room }
        requires numbers { 0 < numbers_left self.old }
        requires replies { 0 < replies_left self.old }
        ensures says { (keys : Keys) (draw : D) (speaker : Speaker D) → IsUnanswered speaker.session.replies request
            → Says now self.old owing.old draw speaker
            → Says now self.new owing.new draw (answers (setting_of now D.step keys) request
            (spelling_of (RpcAnswerDropped dropped.now.number dropped.now.seq dropped.now.length)) speaker) }
        ensures places { owing.new.places + 1 ≡ owing.old.places }
        ensures left { owing.new.room + result_bytes short_bytes ≡ owing.old.room }
        ensures taken { (owing.new.places_taken ≡ owing.old.places_taken) × (owing.new.bytes_taken ≡ owing.old.bytes_taken) }
        ensures numbers_last { numbers_left self.old ≤ numbers_left self.new + 1 }
        ensures replies_last { replies_left self.new + 1 ≡ replies_left self.old }
        ensures unsaid { NoMoreUnsaid self.old owing.old self.new owing.new }
        ensures same_key { key_of self.new ≡ key_of self.old }
        ensures same_number { number_of self.new ≡ number_of self.old }
        ensures at { IsAt now self.old → IsAt now self.new }
    {
        replies_are_results();
        self.answers_by::<D>(
            now,
            owing,
            request,
            Body::short(result_head(request), dropped.content()),
        );
    }

    /// Keeps the replies of these numbers no more: their receipt was acknowledged. Takes no memory.
    pub fn takes_acks<D: Draw>(&mut self, ids: &[u64])
        ensures says { (now : ℕ) (owing : Dues) (draw : D) (speaker : Speaker D)
            → AreReplies speaker.session.history speaker.session.replies speaker.session.counters.last
            → Says now self.old owing draw speaker → Says now self.new owing draw (takes_acks ids.now speaker) }
        ensures same_numbers { numbers_left self.new ≡ numbers_left self.old }
        ensures same_room { replies_left self.new ≡ replies_left self.old }
        ensures unsaid { (owing : Dues) → NoMoreUnsaid self.old owing self.new owing }
        ensures same_key { key_of self.new ≡ key_of self.old }
        ensures same_number { number_of self.new ≡ number_of self.old }
        ensures at { (now : ℕ) → IsAt now self.old → IsAt now self.new }
    {
        for place in 0..ids.len() {
            self.ends_reply(ids[place], Ending::Acked);
        }
    }

    // The kept reply of this number, if there is one, is kept no more.
    fn ends_reply(&mut self, number: u64, ending: Ending)
        ensures stands { (now : ℕ) (session : Session) → Stands now self.old session → AreApart session.replies
            → Stands now self.new (record session { replies = refated (fate_of ending) number session.replies }) }
        ensures same_numbers { numbers_left self.new ≡ numbers_left self.old }
        ensures same_room { replies_left self.new ≡ replies_left self.old }
        ensures fewer_kept { FewerKept self.old self.new }
        ensures same_key { key_of self.new ≡ key_of self.old }
        ensures same_number { number_of self.new ≡ number_of self.old }
        ensures at { (now : ℕ) → IsAt now self.old → IsAt now self.new }
    {
        other_marks_count_nothing();
        marks_follow_history();
        if let Some(call) = self.outbox.ack(number) {
            ends_call(&mut self.inbox, call, ending);
        }
    }
}
