//! What became of a client's calls, whatever state it is in.

ghost use Rattle.std.specs.Prelude.{◌≡◌, ◌≤◌, IsTrue, MatchOption, false, length, not, true};
ghost use Rattle.call_table.specs.Kept.{shown, state_in};
ghost use Rattle.call_table.specs.Table.{IsGiven};
ghost use Rattle.client_rules.specs.Client.{Client, calls_of};
ghost use Rattle.client_core.specs.Holding.{IsInState, is_open_now};
ghost use Rattle.client_node.specs.Course.{is_decided, is_stuck, must_renew};
ghost use Rattle.client_node.specs.Kinds.{NoneBetween, has_kind, has_row, is_kind, is_kind_at};
ghost use Rattle.client_node.specs.Standing.{StandsFor, has_undecided, kept_of, phase_of};

use client_core::{BindState, CallNo, CallState, Holder};

/// A kind of calls.
#[derive(Clone, Copy, PartialEq, Eq)]
pub(crate) enum Kind {
    /// It isn't decided yet what became of them: they are queued, sent or held.
    Undecided,
    /// They are sent.
    Sent,
    /// They are held.
    Held,
}

/// Where the calls are looked through from: the place where one was found last. It says nothing of them.
#[derive(Clone, Copy)]
pub(crate) struct Cursor {
    place: u32,
}

impl Cursor {
    /// The first place.
    pub(crate) fn new() -> Cursor {
        Cursor { place: 0 }
    }
}

/// Whether a call in this state is of a kind.
fn is_of(state: &CallState<'_>, kind: Kind) -> bool
    ensures { result ≡ is_kind kind (shown state.now) }
{
    match state {
        CallState::Queued => kind == Kind::Undecided,
        CallState::Sent => kind != Kind::Held,
        CallState::Held => kind != Kind::Sent,
        CallState::Done(_) | CallState::Refused(_) | CallState::Unknown(_) => false,
    }
}

/// Whether a call of a client is of a kind.
fn is_one(client: &Holder, call: CallNo, kind: Kind) -> bool
    requires given { IsGiven call (kept_of client.now).calls.rows }
    ensures { is_kind_at kind (state_in call (kept_of client.now).calls.rows) ≡ result }
{
    is_of(&client.state(call), kind)
}

/// The first call of a kind from one place up to another, by its place.
fn first_between(client: &Holder, kind: Kind, first: u32, end: u32) -> Option<u32>
    requires within { end ≤ length (kept_of client.now).calls.rows }
    ensures { MatchOption result (NoneBetween kind (kept_of client.now).calls.rows first end) (λ place. has_row kind (kept_of client.now).calls.rows ≡ true) }
{
    for place in first..end {
        let call = CallNo {
            n: place as u64 + 1,
        };
        if is_one(client, call, kind) {
            return Some(place);
        }
    }
    None
}

/// A call of a kind, by its place: the first one from this place on, or else the first one of all.
fn find(client: &Holder, kind: Kind, first: u32) -> Option<u32>
    ensures { MatchOption result (has_row kind (kept_of client.now).calls.rows ≡ false) (λ place. has_row kind (kept_of client.now).calls.rows ≡ true) }
{
    let count = client.calls();
    match first_between(client, kind, first, count) {
        Some(place) => Some(place),
        None => first_between(client, kind, 0, first.min(count)),
    }
}

/// Whether it tells of a call of a kind. It looks from the cursor on, which it puts where it finds one: while a call there
/// stays of the kind, this costs nothing more.
fn tells_of(client: &Holder, kind: Kind, cursor: &mut Cursor) -> bool
    ensures { result ≡ has_row kind (kept_of client.now).calls.rows }
{
    match find(client, kind, cursor.place) {
        Some(place) => {
            cursor.place = place;
            true
        }
        None => false,
    }
}

/// Whether a client has a call of a kind.
#[tactic(auto, using(crate::proofs::KindLemmas::kinds_tell))]
fn has(client: &Holder, kind: Kind, cursor: &mut Cursor) -> bool
    ensures { (whole : Client) → StandsFor client.now whole → result ≡ has_kind kind (calls_of whole) }
{
    tells_of(client, kind, cursor)
}

/// Whether each call is decided.
#[tactic(auto, using(crate::proofs::KindLemmas::decided_told))]
pub(crate) fn is_decided(client: &Holder, cursor: &mut Cursor) -> bool
    ensures told { result ≡ not (has_undecided client.now) }
    ensures stands { (whole : Client) → StandsFor client.now whole → result ≡ is_decided whole }
{
    !tells_of(client, Kind::Undecided, cursor)
}

/// Whether the client goes on in another session: it is open, a call or the binding waits for one, and no call is sent.
pub(crate) fn must_renew(client: &Holder, cursor: &mut Cursor) -> bool
    ensures told { (whole : Client) → StandsFor client.now whole → result ≡ must_renew (phase_of client.now) whole }
    ensures open { IsTrue result → is_open_now (kept_of client.now).rest ≡ true }
    ensures state { IsInState client.now }
{
    if !client.is_open() {
        return false;
    }
    is_stuck(client, cursor)
}

/// Whether a call or the binding waits for another session, and no call is sent.
fn is_stuck(client: &Holder, cursor: &mut Cursor) -> bool
    ensures { (whole : Client) → StandsFor client.now whole → result ≡ is_stuck whole }
{
    let is_held = matches!(client.binding(), Some(BindState::Held));
    !has(client, Kind::Sent, cursor) && (is_held || has(client, Kind::Held, cursor))
}
