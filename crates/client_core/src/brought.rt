//! What the messages of a packet bring. Reading them takes all the memory that taking them needs, but for room in lists.

ghost use Rattle.std.specs.Prelude.{◌≡◌, ◌≤◌, ◌+◌, ◌==◌, ◌++◌, ℕ, List, if◌then◌else◌, Ok, IfOk, OnOk, length, map, replicate};
ghost use Rattle.tl_codec.specs.Reading.{read_at};
ghost use Rattle.tl_codec.specs.Spelling.{Int};
ghost use Rattle.std.specs.List.{AllByRecursion};
ghost use Rattle.service_tl.specs.ItemOf.{item_behind, item_of};
ghost use Rattle.service_tl.specs.Items.{IsOfSchema, ItemFits};
ghost use Rattle.containers.specs.Container.{messages_max};
ghost use Rattle.containers.specs.Lent.{message_of};
ghost use Rattle.client_rules.specs.Taking.{binding_error, message_in, messages_of};
ghost use Rattle.client_core.specs.Brought.{IsFit, brought_of, lesson_of, notice_of, states_of, wish_of};

use containers::{Part, Parts, is_container};
use envelope::Envelope;
use octets::{IdList, Memory, Octets};
use service_tl::codes::WRONG_SALT;
use service_tl::{Item, RPC_ERROR, parse};
use std::alloc::Global;
use tl_codec::Reader;

/// What a message brings.
#[derive(Drop)]
pub(crate) enum Brought {
    /// The server began a new session.
    Session {
        unique: u64,
        salt: u64,
    },
    /// The answer to the message of that number, with the code of the error that it is, 0 where it is none.
    Answer {
        about: u64,
        result: Octets,
        code: u32,
    },
    /// The message of that number is refused, for the reason of the code; the right salt may come with it.
    Notice {
        about: u64,
        code: u32,
        salt: Option<u64>,
    },
    /// A byte of state for each message of that request.
    Told {
        request: u64,
        info: Octets,
    },
    /// A byte of state for each of these messages.
    Fared {
        numbers: IdList,
        info: Octets,
    },
    /// These messages are wanted again.
    Again {
        numbers: IdList,
    },
    /// States are asked for: what is to be told.
    Asks {
        info: Octets,
    },
    /// There is an answer of this number.
    Waits {
        answer: u64,
    },
    /// Nothing.
    Nothing,
}

/// A message, by what it brings.
#[derive(Drop)]
pub(crate) struct Incoming {
    pub(crate) number: u64,
    pub(crate) seq: u32,
    pub(crate) brought: Brought,
}

/// The code where nothing is left, else 0.
fn code_at_end(code: u32, reader: &mut Reader<'_>) -> u32
    ensures { result ≡ (if length reader.old == 0 then code else 0) }
{
    if reader.rest().is_empty() { code } else { 0 }
}

/// The code of an error whose text stands here, behind the code; 0 where it doesn't.
fn code_before(code: u32, reader: &mut Reader<'_>) -> u32
    ensures { (text : List ℕ) → read_at Int text ≡ Ok (code, reader.old) → result ≡ binding_error (item_behind 0x2144ca19 text) }
{
    match reader.bytes() {
        Ok(_) => code_at_end(code, reader),
        Err(_) => 0,
    }
}

/// The code of the error whose fields stand here, behind its constructor; 0 where they don't.
fn read_code(reader: &mut Reader<'_>) -> u32
    ensures { result ≡ binding_error (item_behind 0x2144ca19 reader.old) }
{
    match reader.int() {
        Ok(code) => code_before(code, reader),
        Err(_) => 0,
    }
}

/// The code of the error that stands behind this constructor; 0 where it is none.
fn code_behind(number: u32, reader: &mut Reader<'_>) -> u32
    ensures { result ≡ binding_error (item_behind number reader.old) }
{
    if number != RPC_ERROR {
        return 0;
    }
    read_code(reader)
}

/// The code of the error that an answer is; 0 where it is none. Takes no memory.
fn error_code(answer: &[u8]) -> u32
    ensures { result ≡ binding_error (item_of answer.now) }
{
    let mut reader = Reader::new(answer);
    match reader.int() {
        Ok(number) => code_behind(number, &mut reader),
        Err(_) => 0,
    }
}

/// That nothing is known of so many messages: a byte 1 for each.
fn unknown(alloc: Global, count: usize) -> Result<Octets, Memory>
    ensures { IfOk result (λ info. info ≡ replicate count 1) }
{
    let info = vec![in alloc; 1u8; count]?;
    Ok(Octets::from(info))
}

/// What an item brings that asks for something. The item is lent: it is let go in `wish_told` alone.
fn wish(alloc: Global, item: &Item) -> Result<Brought, Memory>
    requires { IsOfSchema item.now → ItemFits item.now }
    ensures brought { IfOk result (λ brought. brought ≡ wish_of item.now) }
    ensures fit { IfOk result IsFit }
{
    match item {
        Item::MsgsStateReq { msg_ids } => Ok(Brought::Asks {
            info: unknown(alloc, msg_ids.ids().len())?,
        }),
        Item::MsgDetailedInfo { answer_msg_id, .. }
        | Item::MsgNewDetailedInfo { answer_msg_id, .. } => Ok(Brought::Waits {
            answer: *answer_msg_id,
        }),
        _ => Ok(Brought::Nothing),
    }
}

/// The same of an item that is given, which is let go here.
fn wish_told(alloc: Global, item: Item) -> Result<Brought, Memory>
    requires { IsOfSchema item → ItemFits item }
    ensures brought { IfOk result (λ brought. brought ≡ wish_of item) }
    ensures fit { IfOk result IsFit }
{
    let brought = wish(alloc, &item);
    drop(item);
    brought
}

/// What an item brings that tells states, or asks for something.
fn states(alloc: Global, item: Item) -> Result<Brought, Memory>
    requires { IsOfSchema item → ItemFits item }
    ensures brought { IfOk result (λ brought. brought ≡ states_of item) }
    ensures fit { IfOk result IsFit }
{
    match item {
        Item::MsgsStateInfo { req_msg_id, info } => Ok(Brought::Told {
            request: req_msg_id,
            info,
        }),
        Item::MsgsAllInfo { msg_ids, info } => Ok(Brought::Fared {
            numbers: msg_ids,
            info,
        }),
        Item::MsgResendReq { msg_ids } => Ok(Brought::Again { numbers: msg_ids }),
        other => wish_told(alloc, other),
    }
}

/// What an item brings that is a notice, tells states, or asks for something.
fn notice(alloc: Global, item: Item) -> Result<Brought, Memory>
    requires { IsOfSchema item → ItemFits item }
    ensures brought { IfOk result (λ brought. brought ≡ notice_of item) }
    ensures fit { IfOk result IsFit }
{
    match item {
        Item::BadMsgNotification {
            bad_msg_id,
            error_code,
            ..
        } => Ok(Brought::Notice {
            about: bad_msg_id,
            code: error_code,
            salt: None,
        }),
        Item::BadServerSalt {
            bad_msg_id,
            new_server_salt,
            ..
        } => Ok(Brought::Notice {
            about: bad_msg_id,
            code: WRONG_SALT,
            salt: Some(new_server_salt),
        }),
        other => states(alloc, other),
    }
}

/// What an item brings. A result's bytes are moved.
fn read_item(alloc: Global, item: Item) -> Result<Brought, Memory>
    requires { IsOfSchema item → ItemFits item }
    ensures brought { IfOk result (λ brought. brought ≡ brought_of item) }
    ensures fit { IfOk result IsFit }
{
    match item {
        Item::NewSessionCreated {
            unique_id,
            server_salt,
            ..
        } => Ok(Brought::Session {
            unique: unique_id,
            salt: server_salt,
        }),
        Item::RpcResult { req_msg_id, result } => {
            let code = error_code(result.as_slice());
            Ok(Brought::Answer {
                about: req_msg_id,
                result,
                code,
            })
        }
        other => notice(alloc, other),
    }
}

/// What a message with this body brings. A container brings nothing beside the messages inside it.
fn read_body(alloc: Global, body: &[u8]) -> Result<Brought, Memory>
    ensures brought { IfOk result (λ brought. brought ≡ brought_of (item_of body.now)) }
    ensures fit { IfOk result IsFit }
{
    if is_container(body) {
        return Ok(Brought::Nothing);
    }
    let item = parse(alloc, body)?;
    read_item(alloc, item)
}

/// A message of a container.
fn read_part(alloc: Global, part: &Part<'_>) -> Result<Incoming, Memory>
    ensures lesson { IfOk result (λ lesson. lesson ≡ lesson_of (message_of part.now)) }
    ensures fit { IfOk result (λ lesson. IsFit lesson.brought) }
{
    Ok(Incoming {
        number: part.number,
        seq: part.seq,
        brought: read_body(alloc, part.body)?,
    })
}

/// The messages of a container, behind those that are read already.
fn read_parts(alloc: Global, parts: Parts<'_>, lessons: &mut Vec<Incoming>) -> Result<(), Memory>
    ensures lessons { OnOk result (lessons.new.items ≡ lessons.old.items ++ map lesson_of parts.entry) }
    ensures few { OnOk result (length lessons.new.items ≤ length lessons.old.items + messages_max) }
    ensures fit { OnOk result (AllByRecursion (λ lesson. IsFit lesson.brought) lessons.old.items → AllByRecursion (λ lesson. IsFit lesson.brought) lessons.new.items) }
{
    lessons.reserve(parts.len())?;
    for part in parts {
        lessons.push(read_part(alloc, &part)?)?;
    }
    Ok(())
}

/// The message in an envelope, and those inside it where it is a container; none where it isn't a lawful one. Each result
/// is copied once.
pub(crate) fn read_envelope(alloc: Global, envelope: &Envelope) -> Result<Vec<Incoming>, Memory>
    ensures lessons { IfOk result (λ lessons. lessons.items ≡ map lesson_of (messages_of (message_in envelope.now))) }
    ensures fit { IfOk result (λ lessons. AllByRecursion (λ lesson. IsFit lesson.brought) lessons.items) }
    ensures few { IfOk result (λ lessons. length lessons.items ≤ messages_max + 1) }
{
    let body = envelope.body.as_slice();
    let first = Incoming {
        number: envelope.number,
        seq: envelope.seq,
        brought: read_body(alloc, body)?,
    };
    let mut lessons = Vec::new(alloc);
    lessons.push(first)?;
    if is_container(body) {
        match Parts::read(envelope.number, body) {
            Ok(parts) => read_parts(alloc, parts, &mut lessons)?,
            Err(_) => lessons.clear(),
        }
    }
    Ok(lessons)
}
