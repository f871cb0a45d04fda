//! Messages that are read and not judged yet. Reading them takes all the memory that judging needs.

ghost use Rattle.std.specs.Prelude.{◌≡◌, true, IfOk, map};
ghost use Rattle.inbox.specs.Kinds.{inner_messages};
ghost use Rattle.inbox.specs.Drafts.{draft_of};
ghost use Rattle.inbox.specs.Inbox.{message_in};
ghost use Rattle.containers.specs.Lent.{message_of};

use crate::kind::{Kind, container_in, kind_among};
use crate::received::Received;
use containers::{Part, Parts};
use octets::Memory;
use std::alloc::Global;

/// A message that is read and not judged yet.
#[derive(Clone, Copy)]
pub(crate) struct Draft {
    pub number: u64,
    pub seq: u32,
    pub kind: Kind,
}

/// An envelope's message, and those inside it where it is new.
///
/// # Errors
///
/// `Memory`.
pub(crate) fn drafts_of(
    alloc: Global,
    outer: &Received<'_>,
    is_new: bool,
) -> Result<(Draft, Vec<Draft>), Memory>
    ensures message { IfOk result (λ drafts. drafts.0 ≡ draft_of (message_in outer.now)) }
    ensures inner { is_new ≡ true → IfOk result (λ drafts. drafts.1.items ≡ map draft_of (inner_messages (message_in outer.now))) }
{
    let message = Draft {
        number: outer.message.number,
        seq: outer.message.seq,
        kind: outer.kind(),
    };
    let inner = if is_new {
        inner_drafts(alloc, outer.inner())?
    } else {
        Vec::new(alloc)
    };
    Ok((message, inner))
}

fn inner_drafts(alloc: Global, parts: Parts<'_>) -> Result<Vec<Draft>, Memory>
    ensures { IfOk result (λ drafts. drafts.items ≡ map draft_of parts.entry) }
{
    let mut drafts = Vec::with_capacity(alloc, parts.len())?;
    for part in parts {
        drafts.push(inner_draft(&part))?;
    }
    Ok(drafts)
}

fn inner_draft(part: &Part<'_>) -> Draft
    ensures { result ≡ draft_of (message_of part.now) }
{
    let container = container_in(part.number, part.body);
    Draft {
        number: part.number,
        seq: part.seq,
        kind: kind_among(&container, part.body),
    }
}
