//! The answer of a call.

ghost use Rattle.std.specs.Prelude.{◌≡◌, ℕ};
ghost use Rattle.call_table.specs.Kept.{Stands as StandsFor, owner_in};
ghost use Rattle.call_table.specs.Table.{Table, owner};
ghost use Rattle.client_calls.specs.Answered.{given_back, table_answered};
ghost use Rattle.client_calls.specs.Sound.{AreSound};

use call_table::{Calls, Fate};
use octets::Octets;

/// The call that is outstanding under this message identifier is answered with these bytes. They are given back where there
/// is no such call.
pub fn answer_call(calls: &mut Calls, about: u64, answer: Octets) -> Option<Octets>
    ensures kept { result ≡ given_back (owner_in about calls.old.rows) answer }
    ensures back { (table : Table) → StandsFor calls.old table → result ≡ given_back (owner about table.calls) answer }
    ensures stands { (table : Table) → StandsFor calls.old table → StandsFor calls.new (table_answered about answer table) }
    ensures sound { (last : ℕ) → AreSound last calls.old.rows → AreSound last calls.new.rows }
{
    let Some(call) = calls.owner(about) else {
        return Some(answer);
    };
    calls.settle(call, Fate::Done(answer));
    None
}
