//! The registers.

ghost use Rattle.std.specs.Prelude.{◌≡◌, ◌≤◌, true, length, IfOk, IfErr, OnOk, OnErr};
ghost use Rattle.regs_service.specs.Served.{IsReply};
ghost use Rattle.regs_service.specs.Replies as replies;
ghost use Rattle.regs_service.specs.Registers as registers;
ghost use Rattle.regs_service.specs.Kept.{sums_of};

use crate::reply::{Refusal, error_reply, value_reply};
use crate::request::{Request, read};
use crate::service::{NoMemory, Service};
use octets::{Memory, Octets};
use std::alloc::Global;
use std::collections::BTreeMap;
use std::marker::Model;

/// The most names that registers have.
pub const NAMES_MAX: usize = 65_536;

/// Named sums, at first none, at most 65,536. Contracts see the names in order, each with its sum.
///
/// The request `0a1b2c01 name:string amount:long` adds to a name's sum, and `0a1b2c02 name:string` gets it.
/// Both are answered `0a1b2c03 value:long`, the sum after it; a name that isn't there has 0, and a get makes
/// none. `rpc_error 400` has `BAD_REQUEST` where the bytes are neither request or the name isn't 1 to 32 of
/// `a` to `z` and `0` to `9`, else `TOO_LARGE` where the sum passes 2^64 - 1, else `TOO_MANY` where an add
/// would make the 65,537th name. What is refused changes nothing.
#[derive(Debug, Drop)]
pub struct Regs {
    sums: BTreeMap<Vec<u8>, u64>,
}

impl Model for Regs {
    ghost use Rattle.std.specs.Prelude.{ℕ, List, length, ◌≤◌};

    ghost Value = { List (List ℕ × ℕ) };

    ghost use Rattle.regs_service.specs.Kept.{sums_of};
    ghost use Rattle.regs_service.specs.Registers.{names_max};

    ghost view = { λ regs. sums_of regs.sums.entries };

    ghost invariant = { λ regs. length regs.sums.entries ≤ names_max };
}

impl Regs {
    /// How many names there are.
    pub fn names(&self) -> usize
        ensures value { result ≡ length self.now }
        ensures few { result ≤ registers.names_max }
    {
        self.sums.len()
    }

    // The sum of a name, where it is there.
    fn find(&self, name: &[u8]) -> Option<u64>
        ensures { result ≡ registers.find self.now name.now }
    {
        self.sums.get(name).copied()
    }

    // Whether the name is there or may be made.
    fn has_place(&self, name: &[u8]) -> bool
        ensures { result ≡ registers.has_place self.now name.now }
    {
        self.find(name).is_some() || self.sums.len() < NAMES_MAX
    }

    // Puts the sum at the name.
    fn put(&mut self, alloc: Global, name: &[u8], sum: u64) -> Result<(), Memory>
        requires { registers.has_place self.old name.now ≡ true }
        ensures put { OnOk result (self.new ≡ registers.with_sum self.old name.now sum) }
        ensures unchanged_on_memory { OnErr result (self.new ≡ self.old) }
    {
        let key = Vec::from_slice(alloc, name)?;
        self.sums.insert(key, sum)?;
        Ok(())
    }

    // The sum of a name after an add, or why it is refused.
    fn sum_after(&self, name: &[u8], amount: u64) -> Result<u64, Refusal>
        ensures sum { IfOk result (λ sum. registers.added self.now name.now amount ≡ (replies.value_reply sum, registers.with_sum self.now name.now sum)) }
        ensures place { OnOk result (registers.has_place self.now name.now ≡ true) }
        ensures refused { IfErr result (λ refusal. registers.added self.now name.now amount ≡ (replies.refused refusal, self.now)) }
    {
        let Some(sum) = self.find(name).unwrap_or(0).checked_add(amount) else {
            return Err(Refusal::TooLarge);
        };
        if self.has_place(name) {
            Ok(sum)
        } else {
            Err(Refusal::TooMany)
        }
    }

    // Adds to a name's sum. The reply is there before the sum changes.
    fn add(&mut self, alloc: Global, name: &[u8], amount: u64) -> Result<Octets, Memory>
        ensures reply { IfOk result (λ reply. reply ≡ (registers.added self.old name.now amount).0) }
        ensures sized { IfOk result IsReply }
        ensures after { OnOk result (self.new ≡ (registers.added self.old name.now amount).1) }
        ensures unchanged_on_memory { OnErr result (self.new ≡ self.old) }
    {
        let sum = match self.sum_after(name, amount) {
            Ok(sum) => sum,
            Err(refusal) => return error_reply(alloc, refusal),
        };
        let reply = value_reply(alloc, sum)?;
        self.put(alloc, name, sum)?;
        Ok(reply)
    }
}

// A map with the same names and sums.
fn copy_of(sums: &BTreeMap<Vec<u8>, u64>) -> Result<BTreeMap<Vec<u8>, u64>, Memory>
    ensures same { IfOk result (λ copy. sums_of copy.entries ≡ sums_of sums.now.entries) }
    ensures count { IfOk result (λ copy. length copy.entries ≡ length sums.now.entries) }
{
    Ok(sums.clone()?)
}

impl Service for Regs {
    ghost fresh_state = { registers.fresh };

    ghost step = { λ sums request. registers.step sums request };

    fn fresh(alloc: Global) -> Regs {
        Regs {
            sums: BTreeMap::new(alloc),
        }
    }

    fn copy(&self, _alloc: Global) -> Result<Regs, NoMemory> {
        Ok(Regs {
            sums: copy_of(&self.sums)?,
        })
    }

    fn foresee(&self, alloc: Global, request: &[u8]) -> Result<Octets, NoMemory> {
        let reply = match read(request) {
            Some(Request::Add { name, amount }) => match self.sum_after(name, amount) {
                Ok(sum) => value_reply(alloc, sum)?,
                Err(refusal) => error_reply(alloc, refusal)?,
            },
            Some(Request::Get { name }) => value_reply(alloc, self.find(name).unwrap_or(0))?,
            None => error_reply(alloc, Refusal::BadRequest)?,
        };
        Ok(reply)
    }

    fn run(&mut self, alloc: Global, request: &[u8]) -> Result<Octets, NoMemory> {
        let reply = match read(request) {
            Some(Request::Add { name, amount }) => self.add(alloc, name, amount)?,
            Some(Request::Get { name }) => value_reply(alloc, self.find(name).unwrap_or(0))?,
            None => error_reply(alloc, Refusal::BadRequest)?,
        };
        Ok(reply)
    }
}
