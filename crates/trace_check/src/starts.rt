//! What the registers answer in each start of the server.

ghost use Rattle.std.specs.Prelude.{◌≡◌, ◌≢◌, ◌↔◌, ◌<◌, ◌∷◌, ◌++◌, [], ℕ, Some, true, IsTrue, IfOk, OnOk, length};
ghost use Rattle.std.specs.BTreeMap.{get};
ghost use Rattle.std.specs.Ordering.{nat_cmp};
ghost use Rattle.regs_service.specs.Registers.{step};
ghost use Rattle.trace_check.specs.Books.{AreServed};
ghost use Rattle.trace_check.specs.States.{IsRight, state_of, state_with, with_state};
ghost use Rattle.trace_check.specs.declared.fact.Fact.TheVariants as said;

use crate::fact::{Entry, Fact};
use octets::Memory;
use regs_service::{Regs, Service};
use std::alloc::Global;
use std::collections::BTreeMap;

/// For each line, whether it is no entry that ran, or has the reply that the registers of its start give.
pub(crate) fn served(alloc: Global, facts: &[Fact]) -> Result<Vec<bool>, Memory>
    ensures { IfOk result (λ served. AreServed facts.now served.items) }
{
    let mut services = BTreeMap::new(alloc);
    let mut served = Vec::new(alloc);
    for place in 0..facts.len() {
        let right = is_served(alloc, &mut services, &facts[place])?;
        append(&mut served, right)?;
    }
    Ok(served)
}

// Puts an answer at the end.
fn append(served: &mut Vec<bool>, last: bool) -> Result<(), Memory>
    ensures { OnOk result (served.new.items ≡ served.old.items ++ last ∷ []) }
{
    served.push(last)?;
    Ok(())
}

// Whether the line is no entry that ran, or has the reply of the registers, which it then steps.
fn is_served(alloc: Global, services: &mut BTreeMap<u64, Regs>, fact: &Fact) -> Result<bool, Memory>
    ensures right { IfOk result (λ right. IsTrue right ↔ IsRight services.old fact.now) }
    ensures after { OnOk result ((start : ℕ) → state_of services.new start ≡ state_with start (state_of services.old start) fact.now) }
{
    match fact {
        Fact::Entry(entry) => is_entry_served(alloc, services, entry),
        _ => Ok(true),
    }
}

fn is_entry_served(
    alloc: Global,
    services: &mut BTreeMap<u64, Regs>,
    entry: &Entry,
) -> Result<bool, Memory>
    ensures right { IfOk result (λ right. IsTrue right ↔ IsRight services.old (said.Entry entry.now)) }
    ensures after { OnOk result ((start : ℕ) → state_of services.new start ≡ state_with start (state_of services.old start) (said.Entry entry.now)) }
{
    if !entry.ran {
        return Ok(true);
    }
    is_reply(alloc, services, entry)
}

// Whether the entry has the reply of the registers of its start, which it steps.
fn is_reply(
    alloc: Global,
    services: &mut BTreeMap<u64, Regs>,
    entry: &Entry,
) -> Result<bool, Memory>
    ensures right { IfOk result (λ right. IsTrue right ↔ (entry.now.reply ≡ (step (state_of services.old entry.now.start) entry.now.request).0)) }
    ensures after { OnOk result ((start : ℕ) → state_of services.new start ≡ with_state entry.now.start start (step (state_of services.old entry.now.start) entry.now.request).1 (state_of services.old start)) }
{
    let mut service = taken(alloc, services, entry.start);
    let request = entry.request.as_slice();
    let reply = service.run(alloc, request)?;
    services.insert(entry.start, service)?;
    let own = reply.as_slice();
    let told = entry.reply.as_slice();
    Ok(is_same(own, told))
}

fn is_same(own: &[u8], other: &[u8]) -> bool
    ensures { IsTrue result ↔ (other.now ≡ own.now) }
{
    own == other
}

// Takes the registers of a start out, or fresh ones where there are none.
fn taken(alloc: Global, services: &mut BTreeMap<u64, Regs>, start: u64) -> Regs
    ensures state { result ≡ state_of services.old start }
    ensures others { (other : ℕ) → other ≢ start → get nat_cmp services.new other ≡ get nat_cmp services.old other }
{
    match services.remove(&start) {
        Some(service) => service,
        None => Regs::fresh(alloc),
    }
}
