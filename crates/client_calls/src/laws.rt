//! Which changes of the calls keep them sound, for callers that change them on their own. Each law is the contract of a
//! function that does nothing.

ghost use Rattle.std.specs.Prelude.{ℕ, ◌≤◌, List};
ghost use Rattle.call_table.specs.declared.call.CallNo.{CallNo};
ghost use Rattle.call_table.specs.declared.call.Fate.{Fate};
ghost use Rattle.call_table.specs.declared.call.Flags.{Flags};
ghost use Rattle.call_table.specs.declared.call.Living.{Living};
ghost use Rattle.call_table.specs.declared.row.Row.{Row};
ghost use Rattle.call_table.specs.Kept.{again_row, flagged_row, sent_row, settled_row};
ghost use Rattle.call_table.specs.Table.{changed};
ghost use Rattle.client_calls.specs.Sound.{AreSound};

/// Calls stay sound: where something becomes of one, where something else is to be done about it, where it goes once more
/// and where it goes under a message identifier that was given; and where further ones are given.
pub fn calls_stay_sound()
    ensures settled { (last : ℕ) (call : CallNo) (fate : Fate) (rows : List Row) → AreSound last rows → AreSound last (changed call (settled_row fate) rows) }
    ensures flagged { (last : ℕ) (call : CallNo) (flags : Flags) (rows : List Row) → AreSound last rows → AreSound last (changed call (flagged_row flags) rows) }
    ensures again { (last : ℕ) (call : CallNo) (salt : ℕ) (rows : List Row) → AreSound last rows → AreSound last (changed call (again_row salt) rows) }
    ensures sent { (last : ℕ) (call : CallNo) (living : Living) (salt : ℕ) (rows : List Row) → living.number ≤ last → AreSound last rows
        → AreSound last (changed call (sent_row living salt) rows) }
    ensures later { (last later : ℕ) (rows : List Row) → last ≤ later → AreSound last rows → AreSound later rows }
{}
