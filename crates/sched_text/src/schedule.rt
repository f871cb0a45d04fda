//! Schedules.

ghost use Rattle.std.specs.Prelude.{◌≡◌, ◌<◌, ◌^◌, ◌↔◌, ◌∷◌, ◌++◌, [], length, IsTrue, IfOk, IfErr, IfSome, OnOk, slice_get};
ghost use Rattle.sched_text.specs.Schedule.{IsFaultOf, Spells};

use crate::event::{Event, event_of};
use crate::lines::Lines;
use octets::Memory;
use std::alloc::Global;
use std::marker::Model;
use thiserror::Error;

/// An event and the number of its line, from 1.
#[derive(Debug, Drop)]
pub struct Placed {
    /// The event.
    pub event: Event,
    /// The number of its line.
    pub line: u32,
}

/// Why a text is no schedule.
#[derive(Clone, Copy, Debug, PartialEq, Eq, Error)]
pub enum SchedFault {
    /// The first line that is outside the grammar.
    #[error("line {line} is no event")]
    BadLine { line: u32 },
    /// Memory ran out.
    #[error("out of memory")]
    Memory,
}

impl From<Memory> for SchedFault {
    ghost use Rattle.std.specs.Prelude.{◌≡◌};
    ghost use Rattle.sched_text.specs.declared.schedule.SchedFault.TheVariants.{Memory};

    ghost from_gives = { λ _ fault. fault ≡ Memory };

    fn from(_memory: Memory) -> SchedFault {
        SchedFault::Memory
    }
}

/// The events of a schedule, each with the number of its line. Contracts see the list of these.
#[derive(Debug, Drop)]
pub struct Events {
    placed: Vec<Placed>,
}

impl Model for Events {
    ghost use Rattle.std.specs.Prelude.{List};
    ghost use Rattle.sched_text.specs.declared.schedule.Placed.{Placed};

    ghost Value = { List Placed };

    ghost view = { λ events. events.placed.items };
}

impl Events {
    /// How many events there are.
    pub fn len(&self) -> usize
        ensures { result ≡ length self.now }
    {
        self.placed.len()
    }

    /// Whether there is none.
    pub fn is_empty(&self) -> bool
        ensures { IsTrue result ↔ (length self.now ≡ 0) }
    {
        self.placed.is_empty()
    }

    /// The event at a place, from 0.
    pub fn event(&self, k: usize) -> &Event
        requires { k < length self.now }
        ensures { IfSome (slice_get self.now k) (λ placed. result.now ≡ placed.event) }
    {
        &self.placed[k].event
    }

    /// The number of the line of the event at a place, from 0. Lines count from 1.
    pub fn line(&self, k: usize) -> u32
        requires { k < length self.now }
        ensures { IfSome (slice_get self.now k) (λ placed. result ≡ placed.line) }
    {
        self.placed[k].line
    }
}

/// Reads a schedule of fewer than 2^32 bytes.
///
/// # Errors
///
/// `BadLine` with the first line that is outside the grammar. `Memory`.
pub fn read(alloc: Global, text: &[u8]) -> Result<Events, SchedFault>
    requires { length text.now < 2 ^ 32 }
    ensures events { IfOk result (λ events. Spells text.now events) }
    ensures bad_line { IfErr result (IsFaultOf text.now) }
{
    let mut lines = Lines::new(text);
    let mut placed = Vec::new(alloc);
    while let Some((line, words)) = lines.next() {
        match event_of(alloc, words)? {
            Some(event) => append(&mut placed, Placed { event, line })?,
            None => return Err(SchedFault::BadLine { line }),
        }
    }
    Ok(Events { placed })
}

// Puts an event at the end.
fn append(placed: &mut Vec<Placed>, last: Placed) -> Result<(), Memory>
    ensures { OnOk result (placed.new.items ≡ placed.old.items ++ last ∷ []) }
{
    placed.push(last)?;
    Ok(())
}
