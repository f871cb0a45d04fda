//! Writing frames into room that was taken before.

ghost use Rattle.std.specs.Prelude.{◌≡◌, ◌≢◌, ◌≤◌, ◌+◌, ◌++◌, ◌↔◌, length};
ghost use Rattle.std.specs.Bool.{IsTrue};
ghost use Rattle.framing.specs.Payload.{IsPayload};
ghost use Rattle.transport.specs.Forms.{frame_of};
ghost use Rattle.transport.specs.declared.form.Form.TheVariants.{Full};
ghost use Rattle.secret_relay.specs.Written.{CanGoOut};

use byteorder::{ByteOrder, LittleEndian};
use octets::Buffer;
use transport::Form;

// The bytes of a word, and of the longest head of a frame.
const WORD_BYTES: usize = 4;

// The first byte of an abridged length that has 3 more bytes. A byte below it is a length itself.
const LONG_FORM: u8 = 127;

// The bytes of a transport error, of the shortest packet behind it in the padded form, and the step from one to the next.
const ERROR_BYTES: usize = 4;

const SEALED_MIN: usize = 24;

const SEALED_STEP: usize = 16;

/// Whether a packet can go out in the form.
pub(crate) fn can_go_out(form: Form, packet: &[u8]) -> bool
    ensures { IsTrue result ↔ CanGoOut form packet.now }
{
    let len = packet.len();
    match form {
        Form::Padded => {
            len == ERROR_BYTES || (len >= SEALED_MIN && (len - SEALED_MIN) % SEALED_STEP == 0)
        }
        Form::Abridged | Form::Intermediate | Form::Full => true,
    }
}

/// Puts the frame of a packet at the end, as the writer of the form makes it.
pub(crate) fn put_frame(form: Form, packet: &[u8], into: &mut Buffer)
    requires not_full { form ≢ Full }
    requires payload { IsPayload packet.now }
    requires room { 4 + length packet.now ≤ into.old.room }
    ensures written { into.new.bytes ≡ into.old.bytes ++ frame_of form 0 packet.now }
    ensures room { into.old.room ≤ into.new.room + (4 + length packet.now) }
{
    let words = packet.len() / WORD_BYTES;
    if form != Form::Abridged {
        into.push_all(&(packet.len() as u32).to_le_bytes());
    } else if words < LONG_FORM as usize {
        into.push_all(&[words as u8]);
    } else {
        let mut head = [LONG_FORM; WORD_BYTES];
        LittleEndian::write_u24(&mut head[1..], words as u32);
        into.push_all(&head);
    }
    into.push_all(packet);
}
