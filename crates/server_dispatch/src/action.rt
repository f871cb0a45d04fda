//! What judged messages need, made before anything of the event changes.

ghost use Rattle.std.specs.Prelude.{◌≡◌, ◌≤◌, IfOk, length, min};
ghost use Rattle.salt_line.specs.Rows.{future_rows_max};
ghost use Rattle.server_output.specs.Items.{ids_max, salts_bytes, states_bytes};
ghost use Rattle.server_dispatch.specs.declared.action.Action.TheVariants.{Answers};
ghost use Rattle.server_dispatch.specs.declared.action.Answering.TheVariants.{ForService};
ghost use Rattle.server_dispatch.specs.Action.{IsItemShort, accepted_needed, asked_by, body_needed, call_needed, due_by, due_bytes, list_needed, telling_asks, telling_bytes, word_needed};

use crate::calls::CallDue;
use inbox::Verdict;
use octets::{IdList, Memory, Octets};
use outbox::Bytes;
use service_tl::Item;
use std::alloc::Global;
use std::marker::Model;
use temp_keys::Binding;
use tl_codec::fill;

/// The most rows of salts that are told at once.
const SALT_ROWS_MAX: u32 = 64;

/// How many bytes a message has that tells states, beside the string of them.
const STATES_BYTES: usize = 12;

/// How many bytes a message has that tells no salts, and how many each row of salts adds.
const SALTS_BYTES: usize = 20;

const SALT_ROW_BYTES: usize = 16;

/// How many bytes a pong has.
const PONG_BYTES: usize = 20;

/// How many bytes the longer one of the two notices has.
pub const NOTICE_BYTES: usize = 28;

/// How many bytes an answer to `destroy_session` has.
const DESTROYED_BYTES: usize = 12;

/// How many bytes two short answers have at most.
const ANSWERS_BYTES: usize = 96;

/// The numbers of messages that a message asks for, at most 8,192. Contracts see the list.
#[derive(Debug, Drop)]
pub struct Asked {
    numbers: IdList,
}

impl Model for Asked {
    ghost use Rattle.std.specs.Prelude.{◌≤◌, ℕ, List, length};
    ghost use Rattle.server_output.specs.Items.{ids_max};

    ghost Value = { List ℕ };

    ghost view = { λ asked. asked.numbers };

    ghost invariant = { λ asked. length asked.numbers ≤ ids_max };
}

impl Asked {
    /// These numbers.
    ///
    /// # Errors
    ///
    /// `Memory`.
    pub fn new(alloc: Global, numbers: &[u64]) -> Result<Asked, Memory>
        requires short { length numbers.now ≤ ids_max }
        ensures { IfOk result (λ asked. asked ≡ numbers.now) }
    {
        Ok(Asked {
            numbers: IdList::copy(alloc, numbers)?,
        })
    }

    /// The numbers in order. Takes no memory.
    pub fn ids(&self) -> &[u64]
        ensures value { result.now ≡ self.now }
        ensures short { length self.now ≤ ids_max }
    {
        self.numbers.ids()
    }
}

/// What an accepted message needs that has no answer to a call.
#[derive(Debug, Drop)]
pub enum Telling {
    /// A pong with this ping's identifier.
    Pongs(u64),
    /// So many salts, at most 64.
    Salts(u32),
    /// That these numbers' replies are kept no more.
    Acks(IdList),
    /// The states of these numbers.
    States(Asked),
    /// The kept replies of these numbers, or else their states.
    Resends(Asked),
}

/// What an accepted message needs that has an answer, or becomes a job.
#[derive(Debug, Drop)]
pub enum Answering {
    /// That packed bodies are refused.
    PackedBody(Bytes),
    /// That the body isn't spelt right, which begins with this constructor.
    BrokenBody {
        /// The constructor.
        constructor: u32,
        /// The body.
        body: Bytes,
    },
    /// The binding of a temporary key.
    Binds(Binding),
    /// That no answer comes to this call.
    Drops(u64),
    /// A job for the service.
    ForService(CallDue),
}

/// What a judged message needs in an event, in memory of its own.
#[derive(Debug, Drop)]
pub enum Action {
    /// The notice of this code on a message of this sequence number.
    Notice {
        /// The message's sequence number.
        seq: u32,
        /// The code.
        code: u32,
    },
    /// What is owed to a message that came again, of this sequence number.
    CameAgain {
        /// The message's sequence number.
        seq: u32,
    },
    /// What has no answer to a call.
    Tells(Telling),
    /// What has an answer, or becomes a job.
    Answers(Answering),
    /// The loss of the other session of this number, which touches more than the session that asks for it.
    Destroys(u64),
    /// Nothing.
    Nothing,
}

impl Action {
    /// What the message of this sequence number needs, which was judged so, where this is what it needs accepted. Takes no
    /// memory.
    pub fn judged(self, seq: u32, verdict: &Verdict) -> Action
        ensures { result ≡ due_by seq verdict.now self }
    {
        match verdict {
            Verdict::Noticed(code) => Action::Notice { seq, code: *code },
            Verdict::Again(_) => Action::CameAgain { seq },
            Verdict::Accepted => self,
        }
    }

    /// The numbers of the kept replies that it asks for. Takes no memory.
    pub fn asked(&self) -> &[u64]
        ensures { result.now ≡ asked_by self.now }
    {
        match self {
            Action::Tells(telling) => telling_asks(telling),
            _ => &[],
        }
    }

    /// How many bytes the bodies may have at most of what it owes, beside replies that are kept already: at most 8,208, in
    /// two messages.
    pub fn bytes(&self) -> usize
        ensures value { result ≡ due_bytes self.now }
        ensures few { result ≤ 8208 }
    {
        match self {
            Action::Notice { .. } | Action::CameAgain { .. } => NOTICE_BYTES,
            Action::Tells(telling) => telling_bytes(telling),
            Action::Answers(_) => ANSWERS_BYTES,
            Action::Destroys(_) => DESTROYED_BYTES,
            Action::Nothing => 0,
        }
    }
}

fn telling_asks(telling: &Telling) -> &[u64]
    ensures { result.now ≡ telling_asks telling.now }
{
    match telling {
        Telling::Resends(asked) => asked.ids(),
        _ => &[],
    }
}

fn telling_bytes(telling: &Telling) -> usize
    ensures value { result ≡ telling_bytes telling.now }
    ensures few { result ≤ 8208 }
{
    match telling {
        Telling::Pongs(_) => PONG_BYTES,
        Telling::Salts(count) => salts_bytes(*count),
        Telling::Acks(_) => 0,
        Telling::States(asked) | Telling::Resends(asked) => states_bytes(asked),
    }
}

fn salts_bytes(count: u32) -> usize
    ensures value { result ≡ salts_bytes (min count future_rows_max) }
    ensures few { result ≤ 8208 }
{
    SALTS_BYTES + SALT_ROW_BYTES * (count.min(SALT_ROWS_MAX) as usize)
}

fn states_bytes(asked: &Asked) -> usize
    ensures value { result ≡ states_bytes (length asked.now) }
    ensures few { result ≤ 8208 }
{
    let count = asked.ids().len();
    STATES_BYTES + fill::string_size(count)
}

/// What an accepted message needs by a query for the service, or else by its body, its list or a word.
///
/// # Errors
///
/// `Memory`.
pub(crate) fn accepted_needed(
    alloc: Global,
    number: u64,
    item: &Item,
    body: &[u8],
) -> Result<Action, Memory>
    requires short { IsItemShort item.now }
    ensures { IfOk result (λ due. due ≡ accepted_needed number item.now body.now) }
{
    match item {
        Item::Call => for_service(alloc, number, &[], body),
        Item::InvokeAfterMsg { msg_id, query } => {
            for_service(alloc, number, &[*msg_id], query.as_slice())
        }
        Item::InvokeAfterMsgs { msg_ids, query } => {
            for_service(alloc, number, msg_ids.ids(), query.as_slice())
        }
        _ => body_needed(alloc, item, body),
    }
}

fn for_service(alloc: Global, number: u64, numbers: &[u64], query: &[u8]) -> Result<Action, Memory>
    ensures { IfOk result (λ due. due ≡ Answers (ForService (call_needed number numbers.now query.now))) }
{
    Ok(Action::Answers(Answering::ForService(CallDue::new(alloc, number, numbers, query)?)))
}

// What an accepted message needs by its body, or else by its list or a word.
fn body_needed(alloc: Global, item: &Item, body: &[u8]) -> Result<Action, Memory>
    requires short { IsItemShort item.now }
    ensures { IfOk result (λ due. due ≡ body_needed item.now body.now) }
{
    match item {
        Item::Packed => Ok(Action::Answers(Answering::PackedBody(Bytes::copy_from_slice(
            alloc, body,
        )?))),
        Item::Broken(constructor) => Ok(Action::Answers(Answering::BrokenBody {
            constructor: *constructor,
            body: Bytes::copy_from_slice(alloc, body)?,
        })),
        Item::AuthBindTempAuthKey {
            perm_auth_key_id,
            nonce,
            expires_at,
            encrypted_message,
        } => Ok(Action::Answers(Answering::Binds(Binding {
            perm: *perm_auth_key_id,
            nonce: *nonce,
            expires: *expires_at,
            message: Octets::copy(alloc, encrypted_message.as_slice())?,
        }))),
        _ => list_needed(alloc, item),
    }
}

// What an accepted message needs by its list, or else by a word.
fn list_needed(alloc: Global, item: &Item) -> Result<Action, Memory>
    requires short { IsItemShort item.now }
    ensures { IfOk result (λ due. due ≡ list_needed item.now) }
{
    match item {
        Item::MsgsAck { msg_ids } => Ok(Action::Tells(Telling::Acks(IdList::copy(
            alloc,
            msg_ids.ids(),
        )?))),
        Item::MsgsStateReq { msg_ids } => Ok(Action::Tells(Telling::States(Asked::new(
            alloc,
            msg_ids.ids(),
        )?))),
        Item::MsgResendReq { msg_ids } => Ok(Action::Tells(Telling::Resends(Asked::new(
            alloc,
            msg_ids.ids(),
        )?))),
        _ => Ok(word_needed(item)),
    }
}

// What an accepted message needs by a word.
fn word_needed(item: &Item) -> Action
    ensures { result ≡ word_needed item.now }
{
    match item {
        Item::RpcDropAnswer { req_msg_id } => Action::Answers(Answering::Drops(*req_msg_id)),
        Item::Ping { ping_id } | Item::PingDelayDisconnect { ping_id, .. } => {
            Action::Tells(Telling::Pongs(*ping_id))
        }
        Item::GetFutureSalts { num } => Action::Tells(Telling::Salts(*num)),
        Item::DestroySession { session_id } => Action::Destroys(*session_id),
        _ => Action::Nothing,
    }
}
