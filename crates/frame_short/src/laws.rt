//! Laws of the abridged form, each the contract of a function that does nothing.

ghost use Rattle.std.specs.Prelude.{◌≡◌, ◌<◌, ◌++◌, ◌∷◌, [], List, ℕ, length};
ghost use Rattle.octets.specs.Bytes.{IsBytes};
ghost use Rattle.framing.specs.Payload.{IsPayload};
ghost use Rattle.framing.specs.Streams.{Frame, Frames, Begins, IsBegun};
ghost use Rattle.frame_short.specs.Abridged.{abridged, frame_of};

use crate::abridged::AbridgedForm;
use framing::laws::streams_go_on;

/// What is written is a frame of its payload, whatever its number.
pub fn written_frames()
    ensures { (i : ℕ) (packet : List ℕ) → IsPayload packet → Frame abridged i packet (frame_of packet) }
{}

/// What is written behind other frames is read again, whatever follows it.
pub fn written_frames_are_read()
    ensures behind { (packets : List (List ℕ)) (packet frames text : List ℕ)
        → Frames abridged 0 packets frames → IsPayload packet → text ≡ frame_of packet
        → Begins abridged (packets ++ packet ∷ []) (frames ++ text) }
    ensures whatever_follows { (packets : List (List ℕ)) (packet frames rest : List ℕ)
        → Frames abridged 0 packets frames → IsPayload packet
        → Begins abridged (packets ++ packet ∷ []) (frames ++ frame_of packet ++ rest) }
{
    written_frames();
    streams_go_on::<AbridgedForm>();
}

/// What is less than a frame is a proper prefix of one.
pub fn prefixes_go_on()
    ensures { (bytes : List ℕ) → IsBytes bytes → IsBegun abridged bytes
        → (packet more : List ℕ) × (0 < length more) × Frame abridged 0 packet (bytes ++ more) }
{}
