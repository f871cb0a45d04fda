//! Answers to calls: a session says each once, and keeps it as a reply (core.telegram.org/mtproto/service_messages,
//! "Response to an RPC query").

ghost use Rattle.std.specs.Prelude.{◌≡◌, ◌≤◌, ◌<◌, ◌+◌, ◌++◌, ◌∷◌, [], ℕ, Bool, IfSome, Some, None, true, false, drop, length, option_map};
ghost use Rattle.std.specs.Option.{option_copied};
ghost use Rattle.id_window.specs.declared.mark.Mark.TheVariants.{Replied};
ghost use Rattle.service_tl.specs.declared.item.Item.TheVariants.{RpcResult};
ghost use Rattle.service_tl.specs.Items.{spelling_of};
ghost use Rattle.packing.specs.Numbering.{numbered};
ghost use Rattle.outbox.specs.declared.kept.Kept.{Kept as One};
ghost use Rattle.outbox.specs.Bodies.{head_bytes};
ghost use Rattle.outbox.specs.Replies.{by_call, fits, kept_bytes_max};
ghost use Rattle.server_rules.specs.Event.{Speaker};
ghost use Rattle.server_rules.specs.Server.{IsKept, Reply, Session, kept_of, mark_in, reply_to};
ghost use Rattle.server_rules.specs.Rows.{says_reply};
ghost use Rattle.server_rules.specs.Speaking.{answers, made_room, says, without_oldest};
ghost use Rattle.law_server.specs.Order.{IsUnanswered};
ghost use Rattle.server_output.specs.Dues.{has_number};
ghost use Rattle.server_output.specs.Items.{IsContent, result_bytes};
ghost use Rattle.server_session.specs.Fates.{kept_to};
ghost use Rattle.server_session.specs.Kept.{IsResult};

use crate::contents::result_head;
use crate::laws::replies_are_results;
use crate::marking::{mark_dropped, mark_replied};
use crate::session::SessionState;
use draws::Draw;
use msg_ids::Moment;
use outbox::{Body, Bytes, Kept};
use server_output::{Outgoing, OutgoingMessages};
use server_rules::laws::oldest_replies_are_dropped;
use service_tl::is_good;

impl SessionState {
    ghost use Rattle.server_session.specs.SessionState.{IsAt, Stands, key_of, number_of, numbers_left, outbox_of, replies_left, reply_bytes};
    ghost use Rattle.server_session.specs.Says.{Keys, Says, setting_of};
    ghost use Rattle.server_session.specs.Unsaid.{CallsFor, FewerKept, NoMoreUnsaid, StaySaid, is_to, unsaid_bytes, unsaid_count};

    // Says the result of a call. Its number and its seq.
    fn owes_result<D: Draw>(
        &mut self,
        now: Moment,
        owing: &mut OutgoingMessages,
        call: u64,
        content: &[u8],
    ) -> (u64, u32)
        requires content { IsContent content.now }
        requires place { 0 < owing.old.places }
        requires bytes { result_bytes (length content.now) ≤ owing.old.room }
        requires numbers { 0 < numbers_left self.old }
        ensures given { (result.0 ≡ (numbered now self.old.numbers (RpcResult call content.now)).number) × (result.1 ≡ (numbered now self.old.numbers (RpcResult call content.now)).seq) }
        ensures says { (keys : Keys) (draw : D) (speaker : Speaker D) → Says now self.old owing.old draw speaker
            → Says now self.new owing.new draw (says (setting_of now D.step keys) (RpcResult call content.now) speaker) }
        ensures places { owing.new.places + 1 ≡ owing.old.places }
        ensures left { owing.new.room + result_bytes (length content.now) ≡ owing.old.room }
        ensures taken { (owing.new.places_taken ≡ owing.old.places_taken) × (owing.new.bytes_taken ≡ owing.old.bytes_taken) }
        ensures numbers_last { numbers_left self.old ≤ numbers_left self.new + 1 }
        ensures stays_said { StaySaid owing.old.messages owing.new.messages }
        ensures said { has_number result.0 owing.new.messages ≡ true }
        ensures same_outbox { self.new.outbox ≡ self.old.outbox }
        ensures same_key { key_of self.new ≡ key_of self.old }
        ensures same_number { number_of self.new ≡ number_of self.old }
        ensures same_salts { self.new.salts ≡ self.old.salts }
    {
        owing.say(now, &mut self.numbers, &Outgoing::Result { call, content })
    }

    // Where a further reply of so many bytes doesn't fit, the oldest one is dropped, and its call is marked so. Whether one
    // was.
    fn drops_oldest<D: Draw>(&mut self, bytes: usize) -> bool
        requires { bytes ≤ kept_bytes_max }
        ensures stands { (now : ℕ) (session : Session) → result ≡ true → Stands now self.old session
            → Stands now self.new (record session { replies = without_oldest session.replies }) }
        ensures did_not_fit { result ≡ true → fits bytes self.old.outbox.replies ≡ false }
        ensures fewer { result ≡ true → length self.new.outbox.replies + 1 ≡ length self.old.outbox.replies }
        ensures fits { result ≡ false → fits bytes self.new.outbox.replies ≡ true }
        ensures unchanged { result ≡ false → self.new ≡ self.old }
        ensures same_room { replies_left self.new ≡ replies_left self.old }
        ensures fewer_kept { FewerKept self.old self.new }
        ensures same_numbers { self.new.numbers ≡ self.old.numbers }
        ensures same_key { key_of self.new ≡ key_of self.old }
        ensures same_number { number_of self.new ≡ number_of self.old }
        ensures same_salts { self.new.salts ≡ self.old.salts }
    {
        oldest_replies_are_dropped::<D>();
        match self.outbox.make_room(bytes) {
            Some(call) => {
                mark_dropped(&mut self.inbox, call);
                true
            }
            None => false,
        }
    }

    // Drops the oldest replies until a further one of so many bytes fits.
    fn makes_room<D: Draw>(&mut self, bytes: usize)
        requires { bytes ≤ kept_bytes_max }
        ensures stands { (now : ℕ) (session : Session) → Stands now self.old session
            → Stands now self.new (record session { replies = made_room bytes session.replies }) }
        ensures fits { fits bytes self.new.outbox.replies ≡ true }
        ensures same_room { replies_left self.new ≡ replies_left self.old }
        ensures fewer_kept { FewerKept self.old self.new }
        ensures same_numbers { self.new.numbers ≡ self.old.numbers }
        ensures same_key { key_of self.new ≡ key_of self.old }
        ensures same_number { number_of self.new ≡ number_of self.old }
        ensures same_salts { self.new.salts ≡ self.old.salts }
    {
        oldest_replies_are_dropped::<D>();
        'drops: while self.drops_oldest::<D>(bytes) {}
    }

    // Keeps a reply to a call that had none, and marks the call so.
    fn keeps_reply(&mut self, kept: Kept)
        requires fits { fits (length kept.body) self.old.outbox.replies ≡ true }
        requires room { 0 < replies_left self.old }
        requires result { IsResult kept }
        ensures stands { (now : ℕ) (session : Session) (reply : Reply) → Stands now self.old session → kept_of reply ≡ kept → reply.fate ≡ IsKept
            → reply_to reply.call session.replies ≡ None → Stands now self.new (record session { replies = session.replies ++ reply ∷ [] }) }
        ensures room_lasts { replies_left self.new + 1 ≡ replies_left self.old }
        ensures kept { self.new.outbox.replies ≡ self.old.outbox.replies ++ kept ∷ [] }
        ensures same_numbers { self.new.numbers ≡ self.old.numbers }
        ensures same_key { key_of self.new ≡ key_of self.old }
        ensures same_number { number_of self.new ≡ number_of self.old }
        ensures same_salts { self.new.salts ≡ self.old.salts }
    {
        replies_are_results();
        mark_replied(&mut self.inbox, kept.call, is_good(kept.body.rest()));
        self.outbox.keep(kept);
    }

    // Answers a call with this result, and keeps that.
    pub(crate) fn answers_by<D: Draw>(
        &mut self,
        now: Moment,
        owing: &mut OutgoingMessages,
        call: u64,
        body: Body,
    )
        requires result { body ≡ spelling_of (RpcResult call (drop head_bytes body)) }
        requires content { IsContent (drop head_bytes body) }
        requires place { 0 < owing.old.places }
        requires bytes { length body ≤ owing.old.room }
        requires numbers { 0 < numbers_left self.old }
        requires replies { 0 < replies_left self.old }
        ensures says { (keys : Keys) (draw : D) (speaker : Speaker D) → IsUnanswered speaker.session.replies call → Says now self.old owing.old draw speaker
            → Says now self.new owing.new draw (answers (setting_of now D.step keys) call (drop head_bytes body) speaker) }
        ensures places { owing.new.places + 1 ≡ owing.old.places }
        ensures left { owing.new.room + length body ≡ owing.old.room }
        ensures taken { (owing.new.places_taken ≡ owing.old.places_taken) × (owing.new.bytes_taken ≡ owing.old.bytes_taken) }
        ensures numbers_last { numbers_left self.old ≤ numbers_left self.new + 1 }
        ensures replies_last { replies_left self.new + 1 ≡ replies_left self.old }
        ensures unsaid { NoMoreUnsaid self.old owing.old self.new owing.new }
        ensures same_key { key_of self.new ≡ key_of self.old }
        ensures same_number { number_of self.new ≡ number_of self.old }
        ensures same_salts { self.new.salts ≡ self.old.salts }
    {
        let (number, seq) = self.owes_result::<D>(now, owing, call, body.rest());
        self.makes_room::<D>(body.len());
        self.keeps_reply(Kept {
            call,
            number,
            seq,
            body,
        });
    }

    /// Answers a call that has no answer, and keeps the reply, for which room is reserved: the oldest replies are dropped
    /// where it doesn't fit. Takes no memory.
    pub fn answers<D: Draw>(
        &mut self,
        now: Moment,
        owing: &mut OutgoingMessages,
        call: u64,
        content: Bytes,
    )
        requires content { IsContent content }
        requires place { 0 < owing.old.places }
        requires bytes { result_bytes (length content) ≤ owing.old.room }
        requires numbers { 0 < numbers_left self.old }
        requires replies { 0 < replies_left self.old }
        ensures says { (keys : Keys) (draw : D) (speaker : Speaker D) → IsUnanswered speaker.session.replies call → Says now self.old owing.old draw speaker
            → Says now self.new owing.new draw (answers (setting_of now D.step keys) call content speaker) }
        ensures places { owing.new.places + 1 ≡ owing.old.places }
        ensures left { owing.new.room + result_bytes (length content) ≡ owing.old.room }
        ensures taken { (owing.new.places_taken ≡ owing.old.places_taken) × (owing.new.bytes_taken ≡ owing.old.bytes_taken) }
        ensures numbers_last { numbers_left self.old ≤ numbers_left self.new + 1 }
        ensures replies_last { replies_left self.new + 1 ≡ replies_left self.old }
        ensures unsaid { NoMoreUnsaid self.old owing.old self.new owing.new }
        ensures same_key { key_of self.new ≡ key_of self.old }
        ensures same_number { number_of self.new ≡ number_of self.old }
        ensures at { IsAt now self.old → IsAt now self.new }
    {
        replies_are_results();
        self.answers_by::<D>(now, owing, call, Body::shared(result_head(call), content));
    }

    /// The kept reply to a call; none where none is kept.
    pub fn kept_to(&self, call: u64) -> Option<&Kept>
        ensures kept { (now : ℕ) (session : Session) → Stands now self.now session → option_copied result ≡ option_map kept_of (kept_to call session.replies) }
        ensures content { IfSome result (λ kept. IsContent (drop head_bytes kept.now.body)) }
        ensures bytes { IfSome result (λ kept. length kept.now.body ≡ reply_bytes call self.now) }
        ensures none { result ≡ None → reply_bytes call self.now ≡ 0 }
        ensures found { option_copied result ≡ by_call call (outbox_of self.now).replies }
    {
        self.outbox.by_call(call)
    }

    /// Says the kept reply to a call once more, unless it was said in this event, or none is kept.
    pub fn says_kept<D: Draw>(&self, owing: &mut OutgoingMessages, call: u64)
        requires places { unsaid_count (is_to call) self.now owing.old ≤ owing.old.places }
        requires bytes { unsaid_bytes (is_to call) self.now owing.old ≤ owing.old.room }
        ensures says { (now : ℕ) (draw : D) (good : Bool) (speaker : Speaker D) → mark_in speaker.session call ≡ Some (Replied good)
            → Says now self.now owing.old draw speaker → Says now self.now owing.new draw (says_reply (reply_to call speaker.session.replies) speaker) }
        ensures places { (called : One → Bool) → CallsFor (is_to call) called → owing.old.places + unsaid_count called self.now owing.new ≤ owing.new.places + unsaid_count called self.now owing.old }
        ensures left { (called : One → Bool) → CallsFor (is_to call) called → owing.old.room + unsaid_bytes called self.now owing.new ≤ owing.new.room + unsaid_bytes called self.now owing.old }
        ensures taken { (owing.new.places_taken ≡ owing.old.places_taken) × (owing.new.bytes_taken ≡ owing.old.bytes_taken) }
    {
        if let Some(kept) = self.kept_to(call) {
            self.says_again::<D>(owing, kept);
        }
    }
}
