//! What is kept of a call: 72 bytes, and memory of their own for a body or a reply of more than 30 bytes.

ghost use Rattle.std.specs.Prelude.{◌≡◌, ◌<◌, IfSome};
ghost use Rattle.call_table.specs.Kept.{again_row, flagged_row, is_row_in, living_in, new_row, number_in, progress_after, sent_row, settled_row, shown, state_of, under_again, under_in};
ghost use Rattle.call_table.specs.Packed.{progress_told, salt_kept, salts_kept, under_told, wrap_told};
ghost use Rattle.call_table.specs.Table.{calls_max};
ghost use Rattle.call_table.specs.declared.row.Progress.TheVariants as progress;

use crate::call::{CallNo, CallState, Cause, Fate, Flags, Group, Living, Under};
use kept_bytes::{KeptBytes, SHORT_BYTES_MAX, Short};
use octets::Octets;
use std::marker::Model;

/// Nothing is to be done about a call.
const NO_FLAGS: Flags = Flags {
    alone: false,
    dropping: false,
};

/// What became of a call, with what is kept of its living name: what contracts see of a call that a `Calls` keeps.
#[derive(Debug, Drop)]
pub enum Progress {
    /// It waits for a packet.
    Queued,
    /// It was sent, under this name, and so many salts were used with the name.
    Sent { living: Living, under: Under },
    /// It isn't sent again until a state request about its name is answered.
    Held,
    /// Its reply.
    Done(Octets),
    /// The code of its refusal.
    Refused(u32),
    /// Why nothing more is known of it.
    Unknown(Cause),
}

/// An `Under` without its salt.
#[derive(Clone, Copy, Debug)]
pub(crate) enum Salts {
    Zero,
    One,
    More,
}

/// A `Progress` as it is kept: in 32 bytes, where the tags that an `Option` and an `Under` have of their own would take
/// 24 more. `wrap` and `salt` count where `wrapped` and `salts` say that there is one.
#[derive(Debug, Drop)]
pub(crate) enum Packed {
    Queued,
    Sent {
        wrapped: bool,
        salts: Salts,
        seq: u32,
        number: u64,
        wrap: u64,
        salt: u64,
    },
    Held,
    DoneShort(Short),
    Done(Octets),
    Refused(u32),
    Unknown(Cause),
}

/// A call. The one that it follows is an earlier one of at most 65,536, so that its number has 16 bits.
#[derive(Debug, Drop)]
pub(crate) struct Row {
    body: KeptBytes,
    packed: Packed,
    after: Option<u16>,
    flags: Flags,
}

impl Model for Row {
    ghost use Rattle.call_table.specs.Row.{RowTold};
    ghost use Rattle.call_table.specs.Packed.{after_told, progress_told};

    ghost Value = { RowTold };

    ghost view = { λ row. record {
      body = row.body;
      after = after_told row.after;
      progress = progress_told row.packed;
      flags = row.flags;
    } };
}

impl Row {
    /// A call that was just submitted.
    pub(crate) fn new(body: KeptBytes, after: Option<CallNo>) -> Row
        requires { IfSome after (λ one. one.n < calls_max) }
        ensures { result ≡ new_row body after }
    {
        let after = match after {
            Some(one) => Some(one.n as u16),
            None => None,
        };
        Row {
            body,
            packed: Packed::Queued,
            after,
            flags: NO_FLAGS,
        }
    }

    /// The body of the call.
    pub(crate) fn body(&self) -> &[u8]
        ensures { result.now ≡ self.now.body }
    {
        self.body.as_slice()
    }

    /// The call after which it is to execute.
    pub(crate) fn after(&self) -> Option<CallNo>
        ensures { result ≡ self.now.after }
    {
        match self.after {
            Some(n) => Some(CallNo { n: n as u64 }),
            None => None,
        }
    }

    /// What is still to be done about the call.
    pub(crate) fn flags(&self) -> Flags
        ensures { result ≡ self.now.flags }
    {
        self.flags
    }

    /// What became of the call.
    pub(crate) fn state(&self) -> CallState<'_>
        ensures { shown result ≡ state_of self.now.progress }
    {
        match &self.packed {
            Packed::Queued => CallState::Queued,
            Packed::Sent { .. } => CallState::Sent,
            Packed::Held => CallState::Held,
            Packed::DoneShort(bytes) => CallState::Done(bytes.as_slice()),
            Packed::Done(bytes) => CallState::Done(bytes.as_slice()),
            Packed::Refused(code) => CallState::Refused(*code),
            Packed::Unknown(cause) => CallState::Unknown(*cause),
        }
    }

    /// The message under which the call is outstanding.
    pub(crate) fn living(&self) -> Option<Living>
        ensures { result ≡ living_in self.now.progress }
    {
        match &self.packed {
            Packed::Sent {
                wrapped,
                salts: _,
                seq,
                number,
                wrap,
                salt: _,
            } => Some(Living {
                number: *number,
                seq: *seq,
                wrap: wrap_of(*wrapped, *wrap),
            }),
            _ => None,
        }
    }

    /// The message identifier of that message.
    pub(crate) fn number(&self) -> Option<u64>
        ensures { result ≡ number_in self.now.progress }
    {
        match &self.packed {
            Packed::Sent { number, .. } => Some(*number),
            _ => None,
        }
    }

    /// Under which salts that message was sent.
    pub(crate) fn under(&self) -> Option<Under>
        ensures { result ≡ under_in self.now.progress }
    {
        match &self.packed {
            Packed::Sent { salts, salt, .. } => Some(under_of(*salts, *salt)),
            _ => None,
        }
    }

    /// The call is sent as this message, under this salt.
    pub(crate) fn send(&mut self, living: Living, salt: u64)
        ensures { self.new ≡ sent_row living salt self.old }
    {
        let under = under_again(Under::Zero, salt);
        self.packed = pack(Progress::Sent { living, under });
    }

    /// That message was sent once more, under this salt.
    pub(crate) fn send_again(&mut self, salt: u64)
        ensures { self.new ≡ again_row salt self.old }
    {
        if let Packed::Sent {
            salts,
            salt: one,
            ..
        } = &mut self.packed
        {
            let under = under_again(under_of(*salts, *one), salt);
            *salts = salts_of(under);
            *one = salt_of(under);
        }
    }

    /// Something becomes of the call, and nothing is to be done about it any more.
    pub(crate) fn settle(&mut self, fate: Fate)
        ensures { self.new ≡ settled_row fate self.old }
    {
        self.packed = pack(progress_after(fate));
        self.flags = NO_FLAGS;
    }

    /// Says what is to be done about the call.
    pub(crate) fn set_flags(&mut self, flags: Flags)
        ensures { self.new ≡ flagged_row flags self.old }
    {
        self.flags = flags;
    }

    /// Whether the call is one of a group.
    pub(crate) fn is_in(&self, group: Group) -> bool
        ensures { result ≡ is_row_in group self.now }
    {
        match group {
            Group::Queued => matches!(&self.packed, Packed::Queued),
            Group::Outstanding => matches!(&self.packed, Packed::Sent { .. }),
            Group::Held => matches!(&self.packed, Packed::Held),
            Group::Alone => self.flags.alone,
            Group::Dropping => self.flags.dropping,
        }
    }
}

/// What a call has become.
fn progress_after(fate: Fate) -> Progress
    ensures { result ≡ progress_after fate }
{
    match fate {
        Fate::Queue => Progress::Queued,
        Fate::Hold => Progress::Held,
        Fate::Done(bytes) => Progress::Done(bytes),
        Fate::Refused(code) => Progress::Refused(code),
        Fate::Unknown(cause) => Progress::Unknown(cause),
    }
}

/// What is kept of what a call has become.
fn pack(progress: Progress) -> Packed
    ensures { progress_told result ≡ progress }
{
    match progress {
        Progress::Queued => Packed::Queued,
        Progress::Sent { living, under } => Packed::Sent {
            wrapped: living.wrap.is_some(),
            salts: salts_of(under),
            seq: living.seq,
            number: living.number,
            wrap: living.wrap.unwrap_or(0),
            salt: salt_of(under),
        },
        Progress::Held => Packed::Held,
        Progress::Done(bytes) => pack_reply(bytes),
        Progress::Refused(code) => Packed::Refused(code),
        Progress::Unknown(cause) => Packed::Unknown(cause),
    }
}

/// What is kept of a reply.
fn pack_reply(bytes: Octets) -> Packed
    ensures { progress_told result ≡ progress.Done bytes }
{
    if bytes.as_slice().len() <= SHORT_BYTES_MAX {
        return Packed::DoneShort(Short::new(bytes.as_slice()));
    }
    Packed::Done(bytes)
}

/// The message identifier inside `invokeAfterMsg`, where there is one.
fn wrap_of(wrapped: bool, wrap: u64) -> Option<u64>
    ensures { result ≡ wrap_told wrapped wrap }
{
    if wrapped { Some(wrap) } else { None }
}

/// The salts, with the one salt where there is one.
fn under_of(salts: Salts, salt: u64) -> Under
    ensures { result ≡ under_told salts salt }
{
    match salts {
        Salts::Zero => Under::Zero,
        Salts::One => Under::One(salt),
        Salts::More => Under::More,
    }
}

/// The salts without the one salt.
fn salts_of(under: Under) -> Salts
    ensures { result ≡ salts_kept under }
{
    match under {
        Under::Zero => Salts::Zero,
        Under::One(_) => Salts::One,
        Under::More => Salts::More,
    }
}

/// The one salt, or 0.
fn salt_of(under: Under) -> u64
    ensures { result ≡ salt_kept under }
{
    match under {
        Under::One(salt) => salt,
        _ => 0,
    }
}

/// What is kept of the salts of a message that was sent under one more.
fn under_again(under: Under, salt: u64) -> Under
    ensures { result ≡ under_again salt under }
{
    match under {
        Under::Zero => {
            if salt == 0 {
                Under::Zero
            } else {
                Under::One(salt)
            }
        }
        Under::One(other) => {
            if salt == 0 || salt == other {
                Under::One(other)
            } else {
                Under::More
            }
        }
        Under::More => Under::More,
    }
}
