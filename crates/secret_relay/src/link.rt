//! A connection behind its start.

ghost use Rattle.std.specs.Prelude.{◌≡◌, ◌≤◌, drop, length};

use crate::fault::RelayFault;
use crate::passing::{pass_on, room_for};
use cipher_modes::Ctr;
use obfus::Pair;
use octets::{Buffer, Memory, Octets};
use std::alloc::Global;
use std::{fmt, mem};
use transport::{Form, form_of_tag};

/// A connection behind its start: the form inside, where both key streams stand, and what is left of either side's stream
/// behind its whole packets.
#[derive(Drop)]
pub(crate) struct Link {
    pub(crate) form: Form,
    pub(crate) up: Ctr,
    pub(crate) down: Ctr,
    pub(crate) client: Octets,
    pub(crate) server: Octets,
}

impl fmt::Debug for Link {
    /// The form and how many bytes are left: the bytes are those of packets.
    fn fmt<W: fmt::Write>(&self, f: &mut fmt::Formatter<W>) -> fmt::Result {
        f.debug_struct("Link")
            .field("form", &self.form)
            .field("client_bytes", &self.client.as_slice().len())
            .field("server_bytes", &self.server.as_slice().len())
            .finish_non_exhaustive()
    }
}

impl Link {
    ghost use Rattle.std.specs.Prelude.{◌≡◌, ◌≢◌, [], IfOk, OnErr};
    ghost use Rattle.transport.specs.Starts.{form_of_tag};
    ghost use Rattle.transport.specs.declared.form.Form.TheVariants.{Full};
    ghost use Rattle.secret_relay.specs.Links.{PassesUp, PassesDown};

    /// One whose client's first bytes were read so. Takes no memory.
    pub(crate) fn new(alloc: Global, pair: Pair) -> Link
        ensures form { result.form ≡ form_of_tag pair.tag }
        ensures not_full { result.form ≢ Full }
        ensures up { result.up ≡ pair.up }
        ensures down { result.down ≡ pair.down }
        ensures client { result.client ≡ [] }
        ensures server { result.server ≡ [] }
    {
        Link {
            form: form_of_tag(pair.tag),
            up: pair.up,
            down: pair.down,
            client: Octets::new(alloc),
            server: Octets::new(alloc),
        }
    }

    /// Takes a piece of what the client has sent, and puts at the end what goes out upwards in the form. It answers the
    /// fault that stands behind that, if any.
    ///
    /// # Errors
    ///
    /// `Memory`, and then the link and the text are as they were.
    pub(crate) fn up(
        &mut self,
        alloc: Global,
        form: Form,
        piece: &[u8],
        out: &mut Octets,
    ) -> Result<Option<RelayFault>, Memory>
        requires from_plain { self.old.form ≢ Full }
        requires to_plain { form ≢ Full }
        ensures passed { IfOk result (λ fault. PassesUp form self.old self.new piece.now out.old out.new fault) }
        ensures unchanged_on_memory { OnErr result ((self.new ≡ self.old) × (out.new ≡ out.old)) }
    {
        let start = self.client.as_slice().len();
        self.client.push_all(alloc, piece)?;
        let room = room_for(self.form, self.client.as_slice(), start);
        let Ok(mut text) = Buffer::after(alloc, out, room) else {
            self.client.truncate(start);
            return Err(Memory);
        };
        let mut bytes = mem::replace(&mut self.client, Octets::new(alloc)).into_vec();
        self.up.apply(&mut bytes[start..]);
        let passed = pass_on(self.form, form, &bytes, &mut text);
        take_front(&mut bytes, passed.taken);
        self.client = Octets::from(bytes);
        *out = text.into_octets();
        Ok(passed.fault)
    }

    /// Takes a piece of what the server has sent in the form, and puts at the end what goes out downwards. It answers the
    /// fault that stands behind that, if any.
    ///
    /// # Errors
    ///
    /// `Memory`, and then the link and the text are as they were.
    pub(crate) fn down(
        &mut self,
        alloc: Global,
        form: Form,
        piece: &[u8],
        out: &mut Octets,
    ) -> Result<Option<RelayFault>, Memory>
        requires from_plain { form ≢ Full }
        requires to_plain { self.old.form ≢ Full }
        ensures passed { IfOk result (λ fault. PassesDown form self.old self.new piece.now out.old out.new fault) }
        ensures unchanged_on_memory { OnErr result ((self.new ≡ self.old) × (out.new ≡ out.old)) }
    {
        let start = self.server.as_slice().len();
        let end = out.as_slice().len();
        self.server.push_all(alloc, piece)?;
        let room = room_for(form, self.server.as_slice(), start);
        let Ok(mut text) = Buffer::after(alloc, out, room) else {
            self.server.truncate(start);
            return Err(Memory);
        };
        let passed = pass_on(form, self.form, self.server.as_slice(), &mut text);
        let mut left = mem::replace(&mut self.server, Octets::new(alloc)).into_vec();
        take_front(&mut left, passed.taken);
        self.server = Octets::from(left);
        let mut bytes = text.into_octets().into_vec();
        self.down.apply(&mut bytes[end..]);
        *out = Octets::from(bytes);
        Ok(passed.fault)
    }
}

// Takes out the first bytes.
fn take_front(bytes: &mut Vec<u8>, count: usize)
    requires { count ≤ length bytes.old.items }
    ensures { bytes.new.items ≡ drop count bytes.old.items }
{
    if count == 0 {
        return;
    }
    let left = bytes.len() - count;
    bytes.copy_within(count.., 0);
    bytes.truncate(left);
}
