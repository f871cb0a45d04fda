//! What becomes of all calls at once: at a renewal, at the end, and where a unique number is learnt.

ghost use Rattle.std.specs.Prelude.{◌≡◌, IsTrue, Some, ℕ, option_map};
ghost use Rattle.call_table.specs.Kept.{Stands as StandsFor, is_row_in, shown, state_in, state_of, with_row};
ghost use Rattle.call_table.specs.Table.{IsGiven, Sent, Table, at, is_in, is_sent, living_name, with_call};
ghost use Rattle.client_rules.specs.Learning.{fate_at_end, fate_learning, fate_under};
ghost use Rattle.client_rules.specs.Events.{fate_renewed};
ghost use Rattle.client_calls.specs.declared.settling.Rule.TheVariants.{Renewed};
ghost use Rattle.client_calls.specs.Rules.{call_by, fate_by, fate_in, fate_learnt_in, kept_by, kept_if, row_by, table_by, table_if};
ghost use Rattle.client_calls.specs.Sound.{AreSound};

use call_table::{CallNo, CallState, Calls, Cause, Fate, Group, Under};

/// What becomes of all calls.
#[derive(Clone, Copy, Debug)]
pub enum Rule {
    /// The client goes on in another session.
    Renewed,
    /// The client ends.
    Ended,
    /// A unique number is learnt with this salt.
    Learnt {
        /// It is the first one of the session.
        is_first: bool,
        /// The salt.
        salt: u64,
    },
}

/// What becomes of a call in this state at a renewal.
fn fate_renewed(state: CallState<'_>) -> Option<Fate>
    ensures { result ≡ fate_renewed (shown state.entry) }
{
    match state {
        CallState::Sent => Some(Fate::Unknown(Cause::Renewed)),
        CallState::Held => Some(Fate::Queue),
        _ => None,
    }
}

/// What becomes of a call in this state at the end.
fn fate_at_end(state: CallState<'_>) -> Option<Fate>
    ensures { result ≡ fate_at_end (shown state.entry) }
{
    match state {
        CallState::Sent => Some(Fate::Unknown(Cause::Ended)),
        CallState::Queued | CallState::Held => Some(Fate::Refused(0)),
        _ => None,
    }
}

/// What becomes of a call that was sent under these salts where a unique number is learnt with this salt.
fn fate_under(is_first: bool, salt: u64, under: Under) -> Option<Fate>
    ensures { result ≡ fate_under is_first salt under }
{
    match under {
        Under::Zero => Some(Fate::Queue),
        Under::One(other) if is_first && other == salt => None,
        Under::One(_) | Under::More => Some(Fate::Unknown(Cause::Session)),
    }
}

/// What becomes of a call where a unique number is learnt with this salt.
fn fate_learning(calls: &Calls, call: CallNo, is_first: bool, salt: u64) -> Option<Fate>
    requires given { IsGiven call calls.now.rows }
    ensures kept { option_map (λ row. fate_learnt_in is_first salt row.progress) (at call calls.now.rows) ≡ Some result }
    ensures told { (table : Table) → StandsFor calls.now table → option_map (λ one. fate_learning is_first salt (living_name one)) (at call table.calls) ≡ Some result }
{
    if !is_outstanding(calls, call) {
        return None;
    }
    fate_under(is_first, salt, calls.under(call))
}

/// Whether a call is `Sent`.
fn is_outstanding(calls: &Calls, call: CallNo) -> bool
    requires given { IsGiven call calls.now.rows }
    ensures sent { IsTrue result → state_in call calls.now.rows ≡ Some Sent }
    ensures kept { option_map (λ row. is_sent (state_of row.progress)) (at call calls.now.rows) ≡ Some result }
    ensures told { (table : Table) → StandsFor calls.now table → option_map (λ one. is_sent one.state) (at call table.calls) ≡ Some result }
{
    matches!(calls.state(call), CallState::Sent)
}

/// What becomes of a call by a rule.
fn fate(calls: &Calls, call: CallNo, rule: Rule) -> Option<Fate>
    requires given { IsGiven call calls.now.rows }
    ensures kept { option_map (fate_in rule) (at call calls.now.rows) ≡ Some result }
    ensures told { (table : Table) → StandsFor calls.now table → option_map (fate_by rule) (at call table.calls) ≡ Some result }
{
    match rule {
        Rule::Renewed => fate_renewed(calls.state(call)),
        Rule::Ended => fate_at_end(calls.state(call)),
        Rule::Learnt { is_first, salt } => fate_learning(calls, call, is_first, salt),
    }
}

/// A call becomes what a rule says.
fn settle_one(calls: &mut Calls, call: CallNo, rule: Rule)
    requires given { IsGiven call calls.old.rows }
    ensures kept { calls.new ≡ with_row call (row_by rule) calls.old }
    ensures stands { (table : Table) → StandsFor calls.old table → StandsFor calls.new (with_call call (call_by rule) table) }
{
    if let Some(fate) = fate(calls, call, rule) {
        calls.settle(call, fate);
    }
}

/// Each call of a group becomes what a rule says. The last one comes first, so that those before it keep their places in
/// the group.
fn settle_group(calls: &mut Calls, group: Group, rule: Rule)
    ensures kept { calls.new ≡ kept_if (is_row_in group) (row_by rule) calls.old }
    ensures stands { (table : Table) → StandsFor calls.old table → StandsFor calls.new (table_if (is_in group) (call_by rule) table) }
{
    let count = calls.members(group);
    for k in 0..count {
        if let Some(call) = calls.member(group, count - 1 - k) {
            settle_one(calls, call, rule);
        }
    }
}

/// Each call becomes what a rule says. Calls that are decided cost nothing.
pub fn settle_all(calls: &mut Calls, rule: Rule)
    ensures kept { calls.new ≡ kept_by rule calls.old }
    ensures stands { (table : Table) → StandsFor calls.old table → StandsFor calls.new (table_by rule table) }
    ensures sound { (last : ℕ) → AreSound last calls.old.rows → AreSound last calls.new.rows }
    ensures renewed { rule ≡ Renewed → (last : ℕ) → AreSound last calls.old.rows → AreSound 0 calls.new.rows }
{
    settle_group(calls, Group::Outstanding, rule);
    match rule {
        Rule::Learnt { .. } => {}
        Rule::Renewed => settle_group(calls, Group::Held, rule),
        Rule::Ended => {
            settle_group(calls, Group::Held, rule);
            settle_group(calls, Group::Queued, rule);
        }
    }
}
