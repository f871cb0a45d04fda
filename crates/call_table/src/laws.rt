//! What a `Calls` tells of the table that it stands for, and what a change of the table leaves, for callers that have
//! the table. Each law is the contract of a function that does nothing.

ghost use Rattle.std.specs.Prelude.{◌≡◌, ◌≢◌, ◌<◌, ◌≤◌, ◌++◌, ◌∷◌, [], ℕ, List, Option, option_map, length};
ghost use Rattle.std.specs.List.{AllByRecursion};
ghost use Rattle.call_table.specs.declared.call.CallNo.{CallNo};
ghost use Rattle.call_table.specs.declared.call.Fate.{Fate};
ghost use Rattle.call_table.specs.declared.call.Flags.{Flags};
ghost use Rattle.call_table.specs.declared.call.Living.{Living};
ghost use Rattle.call_table.specs.Table.{Call, Table, IsGiven, AreBelow, at, acks_max, calls_max, packets_max, changed, flagged, new_call, sent, sent_again, settled, state_at};
ghost use Rattle.call_table.specs.Kept.{Contents, Stands, IsBelow, state_in};

use crate::calls::{ACKS_MAX, CALLS_MAX, PACKETS_MAX};

/// What the conditions of the calls ask of a `Calls` is what they ask of its table: how many calls there are, the state
/// of one, and that a message identifier is above the living ones.
pub fn tables_tell()
    ensures count { (kept : Contents) (table : Table) → Stands kept table → length kept.rows ≡ length table.calls }
    ensures given { (kept : Contents) (table : Table) → Stands kept table
        → (call : CallNo) → IsGiven call table.calls → IsGiven call kept.rows }
    ensures states { (kept : Contents) (table : Table) → Stands kept table
        → (call : CallNo) → state_in call kept.rows ≡ state_at call table.calls }
    ensures above { (kept : Contents) (table : Table) → Stands kept table
        → (number : ℕ) → AreBelow number table.calls → AllByRecursion (IsBelow number) kept.rows }
{}

/// Reserved room says nothing of what a `Calls` stands for.
pub fn room_counts_nothing()
    ensures { (kept : Contents) (table : Table) (room : ℕ) → Stands kept table → Stands record kept { room = room } table }
{}

/// A change of one call leaves the others as they are.
pub fn changes_are_local()
    ensures one { (calls : List Call) (call : CallNo) (change : Call → Call) → at call (changed call change calls) ≡ option_map change (at call calls) }
    ensures others { (calls : List Call) (call other : CallNo) (change : Call → Call) → 0 < call.n → 0 < other.n → other.n ≢ call.n
        → at other (changed call change calls) ≡ at other calls }
    ensures count { (calls : List Call) (call : CallNo) (change : Call → Call) → length (changed call change calls) ≡ length calls }
{}

/// Which changes keep the living message identifiers below a number: a sending under one that is below it, and all others.
pub fn numbers_stay_below()
    ensures added { (number : ℕ) (calls : List Call) (body : List ℕ) (after : Option CallNo) → AreBelow number calls → AreBelow number (calls ++ new_call body after ∷ []) }
    ensures sent { (number : ℕ) (calls : List Call) (call : CallNo) (session : ℕ) (living : Living) (salt : ℕ) → AreBelow number calls → living.number < number
        → AreBelow number (changed call (sent session living salt) calls) }
    ensures again { (number : ℕ) (calls : List Call) (call : CallNo) (salt : ℕ) → AreBelow number calls → AreBelow number (changed call (sent_again salt) calls) }
    ensures settled { (number : ℕ) (calls : List Call) (call : CallNo) (fate : Fate) → AreBelow number calls → AreBelow number (changed call (settled fate) calls) }
    ensures flagged { (number : ℕ) (calls : List Call) (call : CallNo) (flags : Flags) → AreBelow number calls → AreBelow number (changed call (flagged flags) calls) }
    ensures later { (number greater : ℕ) (calls : List Call) → AreBelow number calls → number ≤ greater → AreBelow greater calls }
{}

/// The limits: 65,536 calls, 8,192 waiting acknowledgements, 64 remembered packets.
pub fn limits_hold()
    ensures calls { CALLS_MAX ≡ calls_max }
    ensures acks { ACKS_MAX ≡ acks_max }
    ensures packets { PACKETS_MAX ≡ packets_max }
{}
