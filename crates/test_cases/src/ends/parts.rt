//! Messages, and the packets and containers that bring them (core.telegram.org/mtproto/service_messages).

use draws::StepDraw;
use envelope::{Dir, Envelope, Seal};
use octets::Octets;
use std::alloc::Global;
use std::test::Fail;
use test_lines::Line;

/// The most bytes of a body that a seal takes.
const BODY_MAX: usize = 1_044_480;

/// The key, the session and the salt of packets.
#[derive(Clone, Copy)]
pub(crate) struct Names {
    pub(crate) key: u64,
    pub(crate) session: u64,
    pub(crate) salt: u64,
}

/// A message: its number, its seq and its body.
pub(crate) type Message<'a> = (u64, u32, &'a [u8]);

/// The packet of a message.
pub(crate) fn packet<S: Seal>(
    alloc: Global,
    seal: &S,
    dir: Dir,
    names: Names,
    message: Message<'_>,
) -> Result<Octets, Fail> {
    let (number, seq, body) = message;
    if !seal.has(names.key) || body.len() % 4 != 0 || body.len() > BODY_MAX {
        return Err(Fail::new("no packet"));
    }
    let envelope = Envelope {
        key: names.key,
        salt: names.salt,
        session: names.session,
        number,
        seq,
        body: Octets::copy(alloc, body)?,
    };
    Ok(seal.seal(alloc, dir, &envelope, &mut StepDraw::new())?)
}

/// The messages of a container that isn't sent yet.
#[derive(Drop)]
pub(crate) struct Parts {
    count: u32,
    bytes: Octets,
}

impl Parts {
    /// No message.
    pub(crate) fn new(alloc: Global) -> Parts {
        Parts {
            count: 0,
            bytes: Octets::new(alloc),
        }
    }

    // Puts a message at the end.
    fn put(&mut self, alloc: Global, message: Message<'_>) -> Result<(), Fail> {
        let (number, seq, body) = message;
        let Ok(size) = u32::try_from(body.len()) else {
            return Err(Fail::new("too long"));
        };
        self.count = self.count.wrapping_add(1);
        self.bytes.push_all(alloc, &number.to_le_bytes())?;
        self.bytes.push_all(alloc, &seq.to_le_bytes())?;
        self.bytes.push_all(alloc, &size.to_le_bytes())?;
        self.bytes.push_all(alloc, body)?;
        Ok(())
    }

    /// Puts the message of a line at the end: its number, its seq and its body.
    pub(crate) fn one(&mut self, line: &mut Line<'_>) -> Result<(), Fail> {
        let (number, seq) = line.named()?;
        let body = line.bytes()?;
        self.put(line.alloc, (number, seq, body.as_slice()))
    }

    /// Puts messages of one body at the end: how many, the number of the first and by how much it grows, the
    /// same of the seq, and the body.
    pub(crate) fn many(&mut self, line: &mut Line<'_>) -> Result<(), Fail> {
        let count = line.small()?;
        let (mut number, wide) = (line.number()?, line.number()?);
        let (mut seq, long) = (line.small()?, line.small()?);
        let body = line.bytes()?;
        for _ in 0..count {
            self.put(line.alloc, (number, seq, body.as_slice()))?;
            number = number.wrapping_add(wide);
            seq = seq.wrapping_add(long);
        }
        Ok(())
    }

    /// The body of the container with them, behind which there is no message.
    pub(crate) fn container(&mut self, alloc: Global) -> Result<Octets, Fail> {
        let mut body = Octets::copy(alloc, b"\xdc\xf8\xf1\x73")?;
        body.push_all(alloc, &self.count.to_le_bytes())?;
        body.push_all(alloc, self.bytes.as_slice())?;
        *self = Parts::new(alloc);
        Ok(body)
    }
}
