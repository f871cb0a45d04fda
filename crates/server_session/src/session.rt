//! A session.

ghost use Rattle.std.specs.Prelude.{All, ◌∷◌, ◌++◌, ◌≡◌, ◌^◌, ◌≤◌, ◌<◌, ◌+◌, ℕ, List, [], drop, length, map, min, not, true, false, IfOk, IsSome, OnErr, OnOk};
ghost use Rattle.draws.specs.Draws.{draw_after, word_after};
ghost use Rattle.salt_line.specs.Rows.{future_rows_max};
ghost use Rattle.service_tl.specs.declared.item.Item.TheVariants.{Pong, RpcResult};
ghost use Rattle.service_tl.specs.Items.{spelling_of};
ghost use Rattle.server_output.specs.Dues.{has_number};
ghost use Rattle.inbox.specs.Inbox.{message_in};
ghost use Rattle.inbox.specs.Judging.{judgements, session_after};
ghost use Rattle.inbox.specs.Verdicts.{bare_judgement};
ghost use Rattle.inbox.specs.Refusals.{InEnvelope};
ghost use Rattle.outbox.specs.Bodies.{head_bytes};
ghost use Rattle.waits.specs.Jobs.{Queue};
ghost use Rattle.server_rules.specs.Event.{Speaker};
ghost use Rattle.server_rules.specs.Server.{Reply, Session, has_accepted, kept_of, mark_in, remembered};
ghost use Rattle.server_rules.specs.Answer.{session_for};
ghost use Rattle.server_rules.specs.Speaking.{says, says_again, says_it_is_new};
ghost use Rattle.server_rules.specs.Rows.{acknowledges, notices, tells_salts};
ghost use Rattle.auth_keys.specs.Rings.{entry_of};
ghost use Rattle.server_rules.specs.Sending.{sends};
ghost use Rattle.server_output.specs.Batch.{packets_most};
ghost use Rattle.server_output.specs.Outs.{AreSent};
ghost use Rattle.server_output.specs.Items.{IsContent, acks_bytes, bad_salt_bytes, destroyed_bytes, destroyed_item, ids_max, new_session_bytes, pong_bytes, salts_bytes};
ghost use Rattle.law_server.specs.Order.{IsOrderly};
ghost use Rattle.server_rules.specs.Waiting.{outlook, tells_of};
ghost use Rattle.server_session.specs.Outlooks.{outlook_told};
ghost use Rattle.server_session.specs.Kept.{IsResult};

use crate::laws::{replies_are_results, said_by_number};
use crate::outlook::Outlook;
use draws::Draw;
use envelope::Seal;
use inbox::{Inbox, Judged, Mark, Received};
use law_server::laws::packets_are_judged;
use msg_ids::{Moment, Numbers};
use octets::Memory;
use outbox::{Kept, Outbox};
use salt_line::{SaltLine, SaltRow};
use server_output::laws::sent_as_the_rules_say;
use server_output::{Delivery, Header, Outgoing, OutgoingMessages, Outs};
use service_tl::codes::WRONG_SALT;
use std::alloc::Global;
use waits::Jobs;

/// How many rows of salts are told at once.
const SALT_ROWS_MAX: usize = 64;

const NO_SALT: SaltRow = SaltRow {
    since: 0,
    until: 0,
    salt: 0,
};

/// A session of a server: its names, its salts, what it remembers of what came, the replies that it keeps, and how far its
/// numbers are.
#[derive(Debug, Drop)]
pub struct SessionState {
    pub(crate) key: u64,
    pub(crate) number: u64,
    pub(crate) first: u64,
    pub(crate) unique: u64,
    pub(crate) salts: SaltLine,
    pub(crate) inbox: Inbox,
    pub(crate) outbox: Outbox,
    pub(crate) numbers: Numbers,
    ghost contents: { All IsResult outbox.replies },
}

impl SessionState {
    ghost use Rattle.server_session.specs.SessionState.{IsAt, Stands, key_of, number_of, numbers_left, outbox_of};
    ghost use Rattle.server_session.specs.Says.{Keys, Says, setting_of};
    ghost use Rattle.server_session.specs.Unsaid.{NoMoreUnsaid};

    /// The session of this key and this number that a message of the number `first` makes now. Its unique number is drawn,
    /// then its first salt.
    ///
    /// # Errors
    ///
    /// `Memory`; the draw has moved on all the same.
    pub fn new<D: Draw>(
        alloc: Global,
        now: Moment,
        key: u64,
        number: u64,
        first: u64,
        draw: &mut D,
    ) -> Result<SessionState, Memory>
        ensures stands { (keys : Keys) (salt seq : ℕ) (body : List ℕ) → IfOk result (λ standing. Stands now standing (session_for (setting_of now D.step keys)
            (record { key = key; salt = salt; session = number; number = first; seq = seq; body = body }) draw.old)) }
        ensures drawn { OnOk result (draw.new ≡ draw_after D.step 2 draw.old) }
        ensures key { IfOk result (λ standing. key_of standing ≡ key) }
        ensures number { IfOk result (λ standing. number_of standing ≡ number) }
        ensures numbers { IfOk result (λ standing. numbers_left standing ≡ 2 ^ 30) }
        ensures no_replies { IfOk result (λ standing. outbox_of standing ≡ record { replies = []; room = 0 }) }
        ensures at { IfOk result (IsAt now) }
    {
        let unique = draw.word();
        let salt = draw.word();
        Ok(SessionState {
            key,
            number,
            first,
            unique,
            salts: SaltLine::new(alloc, now, salt)?,
            inbox: Inbox::new(alloc)?,
            outbox: Outbox::new(alloc)?,
            numbers: Numbers::new(),
        })
    }

    /// Whether it has accepted no message so far.
    pub fn is_new(&self) -> bool
        ensures { (now : ℕ) (session : Session) → Stands now self.now session → has_accepted session ≡ not result }
    {
        !self.inbox.heard()
    }

    /// The mark of a number; none where the number isn't kept.
    pub fn mark(&self, number: u64) -> Option<Mark>
        ensures { (now : ℕ) (session : Session) → Stands now self.now session → result ≡ mark_in session number }
    {
        self.inbox.mark(number)
    }

    /// Judges a message that an envelope brought, and where it is accepted the messages inside it. The session remembers
    /// what was judged; all memory is taken before.
    ///
    /// # Errors
    ///
    /// `Memory`, and then it is as it was.
    pub fn judges(
        &mut self,
        alloc: Global,
        now: Moment,
        outer: &Received<'_>,
    ) -> Result<Judged, Memory>
        requires at { IsAt now self.old }
        ensures judged { (session : Session) → Stands now self.old session
            → IfOk result (λ judged. judged ≡ map bare_judgement (judgements (InEnvelope now session.salts outer.now.salt) (remembered session) (message_in outer.now))) }
        ensures stands { (session : Session) (jobs : Queue) → Stands now self.old session
            → IsOrderly session.history session.replies session.counters.last jobs
            → OnOk result (Stands now self.new (record session { history = (session_after (InEnvelope now session.salts outer.now.salt) (remembered session) (message_in outer.now)).history })) }
        ensures unchanged_on_memory { OnErr result (self.new ≡ self.old) }
        ensures same_numbers { numbers_left self.new ≡ numbers_left self.old }
        ensures same_key { key_of self.new ≡ key_of self.old }
        ensures same_number { number_of self.new ≡ number_of self.old }
        ensures same_replies { outbox_of self.new ≡ outbox_of self.old }
        ensures at { IsAt now self.new }
    {
        packets_are_judged();
        self.inbox.judge(alloc, now, &self.salts, outer)
    }

    /// Says a kept reply once more, unless it was said in this event.
    pub fn says_again<D: Draw>(&self, owing: &mut OutgoingMessages, kept: &Kept)
        requires content { IsContent (drop head_bytes kept.now.body) }
        requires place { has_number kept.now.number owing.old.messages ≡ false → 0 < owing.old.places }
        requires bytes { has_number kept.now.number owing.old.messages ≡ false → length kept.now.body ≤ owing.old.room }
        ensures says { (now : ℕ) (draw : D) (speaker : Speaker D) (reply : Reply) → kept_of reply ≡ kept.now
            → Says now self.now owing.old draw speaker → Says now self.now owing.new draw (says_again reply speaker) }
        ensures said { has_number kept.now.number owing.old.messages ≡ false → owing.new.messages
            ≡ owing.old.messages ++ record { number = kept.now.number; seq = kept.now.seq; body = spelling_of (RpcResult kept.now.call (drop head_bytes kept.now.body)) } ∷ [] }
        ensures unchanged_where_said { has_number kept.now.number owing.old.messages ≡ true → owing.new ≡ owing.old }
        ensures places { owing.old.places ≤ owing.new.places + 1 }
        ensures left { owing.old.room ≤ owing.new.room + length kept.now.body }
        ensures taken { (owing.new.places_taken ≡ owing.old.places_taken) × (owing.new.bytes_taken ≡ owing.old.bytes_taken) }
    {
        said_by_number::<D>();
        replies_are_results();
        if !owing.has_said(kept.number) {
            let said = Outgoing::Result {
                call: kept.call,
                content: kept.body.rest(),
            };
            owing.again(kept.number, kept.seq, &said);
        }
    }

    /// What becomes of a number that a job of the session may wait for.
    pub fn outlook(&self, jobs: &Jobs, number: u64) -> Outlook
        ensures { (now : ℕ) (session : Session) → Stands now self.now session → outlook_told result ≡ outlook session jobs.now.jobs number }
    {
        match self.inbox.mark(number) {
            Some(mark) => Outlook::of_mark(mark),
            None => {
                if number <= self.inbox.floor() && !jobs.has(self.key, self.number, number) {
                    Outlook::InVain
                } else {
                    Outlook::GoesOn
                }
            }
        }
    }

    /// Tells the jobs of the session that wait for this number what becomes of it. Takes no memory.
    pub fn tells_of<D: Draw>(&self, jobs: &mut Jobs, number: u64)
        ensures told { (now : ℕ) (speaker : Speaker D) → Stands now self.now speaker.session → jobs.old.jobs ≡ speaker.jobs
            → jobs.new.jobs ≡ (tells_of number speaker).jobs }
        ensures same_room { jobs.new.room ≡ jobs.old.room }
    {
        match self.outlook(jobs, number) {
            Outlook::Over => jobs.settle(self.key, self.number, number, true),
            Outlook::InVain => jobs.settle(self.key, self.number, number, false),
            Outlook::GoesOn => {}
        }
    }

    /// Says that it is new.
    pub fn says_it_is_new<D: Draw>(
        &mut self,
        now: Moment,
        owing: &mut OutgoingMessages,
        draw: &mut D,
    )
        requires place { 0 < owing.old.places }
        requires bytes { new_session_bytes ≤ owing.old.room }
        requires numbers { 0 < numbers_left self.old }
        requires at { IsAt now self.old }
        ensures says { (keys : Keys) (speaker : Speaker D) → Says now self.old owing.old draw.old speaker
            → Says now self.new owing.new draw.new (says_it_is_new (setting_of now D.step keys) speaker) }
        ensures places { owing.new.places + 1 ≡ owing.old.places }
        ensures left { owing.new.room + new_session_bytes ≡ owing.old.room }
        ensures taken { (owing.new.places_taken ≡ owing.old.places_taken) × (owing.new.bytes_taken ≡ owing.old.bytes_taken) }
        ensures numbers_last { numbers_left self.old ≤ numbers_left self.new + 1 }
        ensures same_key { key_of self.new ≡ key_of self.old }
        ensures same_number { number_of self.new ≡ number_of self.old }
        ensures same_replies { outbox_of self.new ≡ outbox_of self.old }
        ensures unsaid { NoMoreUnsaid self.old owing.old self.new owing.new }
        ensures at { IsAt now self.old → IsAt now self.new }
    {
        let salt = self.salts.current(now, draw);
        let said = Outgoing::NewSession {
            first: self.first,
            unique: self.unique,
            salt,
        };
        owing.say(now, &mut self.numbers, &said);
    }

    /// Says which messages it received, unless there is none.
    pub fn acknowledges<D: Draw>(&mut self, now: Moment, owing: &mut OutgoingMessages, ids: &[u64])
        requires few { length ids.now ≤ ids_max }
        requires place { 0 < owing.old.places }
        requires bytes { acks_bytes (length ids.now) ≤ owing.old.room }
        requires numbers { 0 < numbers_left self.old }
        ensures says { (keys : Keys) (draw : D) (speaker : Speaker D) → Says now self.old owing.old draw speaker
            → Says now self.new owing.new draw (acknowledges (setting_of now D.step keys) ids.now speaker) }
        ensures places { owing.old.places ≤ owing.new.places + 1 }
        ensures left { owing.old.room ≤ owing.new.room + acks_bytes (length ids.now) }
        ensures taken { (owing.new.places_taken ≡ owing.old.places_taken) × (owing.new.bytes_taken ≡ owing.old.bytes_taken) }
        ensures numbers_last { numbers_left self.old ≤ numbers_left self.new + 1 }
        ensures same_key { key_of self.new ≡ key_of self.old }
        ensures same_number { number_of self.new ≡ number_of self.old }
        ensures same_replies { outbox_of self.new ≡ outbox_of self.old }
        ensures unsaid { NoMoreUnsaid self.old owing.old self.new owing.new }
        ensures at { IsAt now self.old → IsAt now self.new }
    {
        if !ids.is_empty() {
            owing.say(now, &mut self.numbers, &Outgoing::Acks(ids));
        }
    }

    /// Says that a message is refused with this code; 48 has the right salt with it.
    pub fn notices<D: Draw>(
        &mut self,
        now: Moment,
        owing: &mut OutgoingMessages,
        draw: &mut D,
        number: u64,
        seq: u32,
        code: u32,
    )
        requires place { 0 < owing.old.places }
        requires bytes { bad_salt_bytes ≤ owing.old.room }
        requires numbers { 0 < numbers_left self.old }
        requires at { IsAt now self.old }
        ensures says { (keys : Keys) (speaker : Speaker D) → Says now self.old owing.old draw.old speaker
            → Says now self.new owing.new draw.new (notices (setting_of now D.step keys) number seq code speaker) }
        ensures places { owing.new.places + 1 ≡ owing.old.places }
        ensures left { owing.old.room ≤ owing.new.room + bad_salt_bytes }
        ensures taken { (owing.new.places_taken ≡ owing.old.places_taken) × (owing.new.bytes_taken ≡ owing.old.bytes_taken) }
        ensures numbers_last { numbers_left self.old ≤ numbers_left self.new + 1 }
        ensures same_key { key_of self.new ≡ key_of self.old }
        ensures same_number { number_of self.new ≡ number_of self.old }
        ensures same_replies { outbox_of self.new ≡ outbox_of self.old }
        ensures unsaid { NoMoreUnsaid self.old owing.old self.new owing.new }
        ensures at { IsAt now self.old → IsAt now self.new }
    {
        if code == WRONG_SALT {
            let salt = self.salts.current(now, draw);
            let said = Outgoing::BadSalt { number, seq, salt };
            owing.say(now, &mut self.numbers, &said);
        } else {
            let said = Outgoing::Notice { number, seq, code };
            owing.say(now, &mut self.numbers, &said);
        }
    }

    /// Answers a ping that came in this message.
    pub fn answers_ping<D: Draw>(
        &mut self,
        now: Moment,
        owing: &mut OutgoingMessages,
        message: u64,
        ping: u64,
    )
        requires place { 0 < owing.old.places }
        requires bytes { pong_bytes ≤ owing.old.room }
        requires numbers { 0 < numbers_left self.old }
        ensures says { (keys : Keys) (draw : D) (speaker : Speaker D) → Says now self.old owing.old draw speaker
            → Says now self.new owing.new draw (says (setting_of now D.step keys) (Pong message ping) speaker) }
        ensures places { owing.new.places + 1 ≡ owing.old.places }
        ensures left { owing.new.room + pong_bytes ≡ owing.old.room }
        ensures taken { (owing.new.places_taken ≡ owing.old.places_taken) × (owing.new.bytes_taken ≡ owing.old.bytes_taken) }
        ensures numbers_last { numbers_left self.old ≤ numbers_left self.new + 1 }
        ensures same_key { key_of self.new ≡ key_of self.old }
        ensures same_number { number_of self.new ≡ number_of self.old }
        ensures same_replies { outbox_of self.new ≡ outbox_of self.old }
        ensures unsaid { NoMoreUnsaid self.old owing.old self.new owing.new }
        ensures at { IsAt now self.old → IsAt now self.new }
    {
        owing.say(now, &mut self.numbers, &Outgoing::Pinged { message, ping });
    }

    /// Says that another session of its key is gone, or that there was none.
    pub fn says_destroyed<D: Draw>(
        &mut self,
        now: Moment,
        owing: &mut OutgoingMessages,
        session: u64,
        ok: bool,
    )
        requires place { 0 < owing.old.places }
        requires bytes { destroyed_bytes ≤ owing.old.room }
        requires numbers { 0 < numbers_left self.old }
        ensures says { (keys : Keys) (draw : D) (speaker : Speaker D) → Says now self.old owing.old draw speaker
            → Says now self.new owing.new draw (says (setting_of now D.step keys) (destroyed_item session ok) speaker) }
        ensures places { owing.new.places + 1 ≡ owing.old.places }
        ensures left { owing.new.room + destroyed_bytes ≡ owing.old.room }
        ensures taken { (owing.new.places_taken ≡ owing.old.places_taken) × (owing.new.bytes_taken ≡ owing.old.bytes_taken) }
        ensures numbers_last { numbers_left self.old ≤ numbers_left self.new + 1 }
        ensures same_key { key_of self.new ≡ key_of self.old }
        ensures same_number { number_of self.new ≡ number_of self.old }
        ensures same_replies { outbox_of self.new ≡ outbox_of self.old }
        ensures unsaid { NoMoreUnsaid self.old owing.old self.new owing.new }
        ensures at { IsAt now self.old → IsAt now self.new }
    {
        owing.say(now, &mut self.numbers, &Outgoing::destroyed(session, ok));
    }

    /// Tells its salts from this moment on, at most 64, to the request in this message.
    pub fn tells_salts<D: Draw>(
        &mut self,
        now: Moment,
        owing: &mut OutgoingMessages,
        draw: &mut D,
        request: u64,
        count: u32,
    )
        requires place { 0 < owing.old.places }
        requires bytes { salts_bytes (min count future_rows_max) ≤ owing.old.room }
        requires numbers { 0 < numbers_left self.old }
        requires at { IsAt now self.old }
        ensures says { (keys : Keys) (speaker : Speaker D) → Says now self.old owing.old draw.old speaker
            → Says now self.new owing.new draw.new (tells_salts (setting_of now D.step keys) request (min count future_rows_max) speaker) }
        ensures places { owing.new.places + 1 ≡ owing.old.places }
        ensures left { owing.new.room + salts_bytes (min count future_rows_max) ≡ owing.old.room }
        ensures taken { (owing.new.places_taken ≡ owing.old.places_taken) × (owing.new.bytes_taken ≡ owing.old.bytes_taken) }
        ensures numbers_last { numbers_left self.old ≤ numbers_left self.new + 1 }
        ensures same_key { key_of self.new ≡ key_of self.old }
        ensures same_number { number_of self.new ≡ number_of self.old }
        ensures same_replies { outbox_of self.new ≡ outbox_of self.old }
        ensures unsaid { NoMoreUnsaid self.old owing.old self.new owing.new }
        ensures at { IsAt now self.old → IsAt now self.new }
    {
        let mut rows = [NO_SALT; SALT_ROWS_MAX];
        let told = self.salts.future(now, count as usize, draw, &mut rows);
        let said = Outgoing::Salts {
            request,
            now: now.seconds() as u32,
            rows: &rows[..told],
        };
        owing.say(now, &mut self.numbers, &said);
    }

    /// Sends all that it owes, under its current salt: in packets, whose containers are numbered now, one sealed after the
    /// other. Takes no memory.
    pub fn sends<S: Seal, D: Draw>(
        &mut self,
        now: Moment,
        delivery: Delivery<'_>,
        seal: &S,
        draw: &mut D,
        outs: &mut Outs,
    )
        requires few { delivery.owing.now.places_taken ≤ delivery.packets.messages }
        requires short { delivery.owing.now.bytes_taken ≤ delivery.packets.bytes }
        requires key { IsSome (entry_of (key_of self.old) (S.keys seal.now)) }
        requires numbers { packets_most delivery.packets.messages delivery.packets.bytes ≤ numbers_left self.old }
        requires outs { packets_most delivery.packets.messages delivery.packets.bytes ≤ outs.old.room }
        requires at { IsAt now self.old }
        ensures stands { (keys : Keys) (speaker : Speaker D) → Says now self.old delivery.entry.owing.now draw.old speaker
            → Stands now self.new (sends (setting_of now D.step keys) delivery.entry.owing.now.messages speaker).session }
        ensures drawn { (keys : Keys) (speaker : Speaker D) → Says now self.old delivery.entry.owing.now draw.old speaker
            → draw.new ≡ (sends (setting_of now D.step keys) delivery.entry.owing.now.messages speaker).draw }
        ensures sent { (keys : Keys) (speaker : Speaker D) → Says now self.old delivery.entry.owing.now draw.old speaker
            → AreSent S.lock (S.keys seal.now) speaker.sent outs.old.outs
            → AreSent S.lock (S.keys seal.now) (sends (setting_of now D.step keys) delivery.entry.owing.now.messages speaker).sent outs.new.outs }
        ensures room_lasts { outs.old.room ≤ outs.new.room + packets_most delivery.entry.packets.messages delivery.entry.packets.bytes }
        ensures numbers_last { numbers_left self.old ≤ numbers_left self.new + packets_most delivery.entry.packets.messages delivery.entry.packets.bytes }
        ensures same_key { key_of self.new ≡ key_of self.old }
        ensures same_number { number_of self.new ≡ number_of self.old }
        ensures same_replies { outbox_of self.new ≡ outbox_of self.old }
        ensures at { IsAt now self.new }
    {
        sent_as_the_rules_say::<D>();
        let salt = self.salts.current(now, draw);
        let header = Header {
            key: self.key,
            session: self.number,
            salt,
        };
        delivery.send(now, &mut self.numbers, header, seal, draw, outs);
    }
}
