//! Laws of the full form, each the contract of a function that does nothing.

ghost use Rattle.std.specs.Prelude.{◌≡◌, ◌<◌, ◌+◌, ◌^◌, ◌++◌, ◌∷◌, [], List, ℕ, length};
ghost use Rattle.framing.specs.Payload.{IsPayload};
ghost use Rattle.framing.specs.Streams.{Frame, Frames, Begins, number_after};
ghost use Rattle.frame_full.specs.Full.{full, frame_of};

use crate::full::FullForm;
use crc_core::laws::checks_have_32_bits;
use framing::laws::streams_go_on;

/// What is written is a frame of its payload, with that number.
pub fn written_frames()
    ensures { (i : ℕ) (packet : List ℕ) → i < 2 ^ 32 → IsPayload packet → Frame full i packet (frame_of i packet) }
{
    checks_have_32_bits();
}

/// What is written behind other frames is read again, whatever follows it.
pub fn written_frames_are_read()
    ensures behind { (i : ℕ) (packets : List (List ℕ)) (packet frames text : List ℕ)
        → Frames full 0 packets frames → IsPayload packet → i ≡ number_after (length packets) → text ≡ frame_of i packet
        → Begins full (packets ++ packet ∷ []) (frames ++ text) }
    ensures whatever_follows { (packets : List (List ℕ)) (packet frames rest : List ℕ)
        → Frames full 0 packets frames → IsPayload packet
        → Begins full (packets ++ packet ∷ []) (frames ++ frame_of (number_after (length packets)) packet ++ rest) }
{
    written_frames();
    streams_go_on::<FullForm>();
}

/// The number behind so many packets, and the one behind one more.
pub fn numbers_go_on()
    ensures fresh { number_after (length {A = List ℕ} []) ≡ 0 }
    ensures next { (packets : List (List ℕ)) (packet : List ℕ)
        → number_after (number_after (length packets) + 1) ≡ number_after (length (packets ++ packet ∷ [])) }
{}
