//! A client's start, and what a server reads of it.

ghost use Rattle.std.specs.Prelude.{◌≡◌, false, IfOk, IfErr, Ok, Err, None, Some};
ghost use Rattle.draws.specs.Draws.{draw_after, next_bytes};
ghost use Rattle.obfus.specs.Starts.{start_of, begins_plain};
ghost use Rattle.obfus.specs.Streams.{up_stream, down_stream, ciphered};
ghost use Rattle.obfus.specs.Reads.{Reads, IsFaultOf};
ghost use Rattle.obfus.specs.declared.init.Pair as pairs;
ghost use Rattle.obfus.specs.declared.fault.ObfusFault as faults;

use crate::fault::ObfusFault;
use crate::laws::{one_answer, starts_are_read, starts_look_like_no_other};
use crate::start::{START_BYTES, Start, drawn_start};
use crate::streams::{Secret, ciphered, down_stream};
use crate::tag::Tag;
use cipher_modes::Ctr;
use draws::Draw;
use std::fmt;

/// What a client starts an obfuscated connection with.
#[derive(Drop)]
pub struct Init {
    /// The bytes that it sends first. They tell the keys to whoever sees them, where there is no secret.
    pub wire: [u8; START_BYTES],
    /// The stream from the client to the server, behind these bytes.
    pub up: Ctr,
    /// The stream from the server to the client, at its beginning.
    pub down: Ctr,
}

/// What a server reads of the first bytes of an obfuscated connection.
#[derive(Debug, Drop)]
pub struct Pair {
    /// The framing inside.
    pub tag: Tag,
    /// The data centre that the client wants.
    pub dc: u16,
    /// The stream from the client to the server, behind these bytes.
    pub up: Ctr,
    /// The stream from the server to the client, at its beginning.
    pub down: Ctr,
}

impl fmt::Debug for Init {
    /// Where the streams stand: the first bytes tell the keys.
    fn fmt<W: fmt::Write>(&self, f: &mut fmt::Formatter<W>) -> fmt::Result {
        f.debug_struct("Init")
            .field("up", &self.up)
            .field("down", &self.down)
            .finish_non_exhaustive()
    }
}

impl Init {
    /// The start of an obfuscated connection. It draws 8 words.
    pub fn make<D: Draw>(draw: &mut D, tag: Tag, dc: u16) -> Init
        ensures wire { result.wire ≡ ciphered None (start_of tag dc (next_bytes D.step 64 draw.old)) }
        ensures up { result.up ≡ up_stream None (start_of tag dc (next_bytes D.step 64 draw.old)) 64 }
        ensures down { result.down ≡ down_stream None (start_of tag dc (next_bytes D.step 64 draw.old)) 0 }
        ensures drawn { draw.new ≡ draw_after D.step 8 draw.old }
        ensures read_back { Reads None result.wire (record { tag = tag; dc = dc; up = result.up; down = result.down }) }
        ensures not_plain { begins_plain result.wire ≡ false }
    {
        starts_are_read();
        starts_look_like_no_other();
        Init::of(None, &drawn_start(draw, tag, dc))
    }

    /// The same with the secret of a proxy.
    pub fn make_with<D: Draw>(draw: &mut D, tag: Tag, dc: u16, secret: &[u8; 16]) -> Init
        ensures wire { result.wire ≡ ciphered (Some secret.now) (start_of tag dc (next_bytes D.step 64 draw.old)) }
        ensures up { result.up ≡ up_stream (Some secret.now) (start_of tag dc (next_bytes D.step 64 draw.old)) 64 }
        ensures down { result.down ≡ down_stream (Some secret.now) (start_of tag dc (next_bytes D.step 64 draw.old)) 0 }
        ensures drawn { draw.new ≡ draw_after D.step 8 draw.old }
        ensures read_back { Reads (Some secret.now) result.wire (record { tag = tag; dc = dc; up = result.up; down = result.down }) }
        ensures not_plain { begins_plain result.wire ≡ false }
    {
        starts_are_read();
        starts_look_like_no_other();
        Init::of(Some(*secret), &drawn_start(draw, tag, dc))
    }

    // What is sent of a start, and its streams.
    fn of(secret: Secret, start: &Start) -> Init
        ensures wire { result.wire ≡ ciphered secret start.now }
        ensures up { result.up ≡ up_stream secret start.now 64 }
        ensures down { result.down ≡ down_stream secret start.now 0 }
    {
        let (wire, up) = ciphered(secret, start);
        let down = down_stream(secret, start);
        Init { wire, up, down }
    }

    /// What a server reads of the first 64 bytes of an obfuscated connection.
    ///
    /// # Errors
    ///
    /// `Tag`: deciphered, they carry none of the three tags.
    pub fn read(wire: &[u8; 64]) -> Result<Pair, ObfusFault>
        ensures pair { IfOk result (Reads None wire.now) }
        ensures fault { IfErr result (IsFaultOf None wire.now) }
        ensures only_pair { (pair : pairs.Pair) → Reads None wire.now pair → result ≡ Ok pair }
        ensures only_fault { (fault : faults.ObfusFault) → IsFaultOf None wire.now fault → result ≡ Err fault }
    {
        one_answer();
        read_start(None, wire)
    }

    /// The same with the secret of a proxy.
    ///
    /// # Errors
    ///
    /// As [`Init::read`].
    pub fn read_with(wire: &[u8; 64], secret: &[u8; 16]) -> Result<Pair, ObfusFault>
        ensures pair { IfOk result (Reads (Some secret.now) wire.now) }
        ensures fault { IfErr result (IsFaultOf (Some secret.now) wire.now) }
        ensures only_pair { (pair : pairs.Pair) → Reads (Some secret.now) wire.now pair → result ≡ Ok pair }
        ensures only_fault { (fault : faults.ObfusFault) → IsFaultOf (Some secret.now) wire.now fault → result ≡ Err fault }
    {
        one_answer();
        read_start(Some(*secret), wire)
    }
}

// What a server reads, with the secret where there is one.
fn read_start(secret: Secret, wire: &Start) -> Result<Pair, ObfusFault>
    ensures pair { IfOk result (Reads secret wire.now) }
    ensures fault { IfErr result (IsFaultOf secret wire.now) }
{
    let (start, up) = ciphered(secret, wire);
    let mut found = [0; 4];
    found.copy_from_slice(&start[56..60]);
    let mut dc = [0; 2];
    dc.copy_from_slice(&start[60..62]);
    let Some(tag) = Tag::of(found) else {
        return Err(ObfusFault::Tag { found });
    };
    Ok(Pair {
        tag,
        dc: u16::from_le_bytes(dc),
        up,
        down: down_stream(secret, wire),
    })
}
