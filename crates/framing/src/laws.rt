//! Laws of streams, each the contract of a function that does nothing.

ghost use Rattle.std.specs.Prelude.{◌≡◌, ◌++◌, ◌∷◌, [], ℕ, List, length};
ghost use Rattle.tl_codec.specs.declared.fault.FrameFault.{FrameFault as Shown};
ghost use Rattle.framing.specs.Payload.{payload_max};
ghost use Rattle.framing.specs.Streams.{Frame, Frames, Stream, Faulty, Begins, number_after};
ghost use Rattle.framing.specs.Held.{Held, nothing, with_piece};
ghost use Rattle.framing.specs.Holding.{Stands};

use crate::form::{Framing, PAYLOAD_MAX};

/// The constant is the limit of the definitions.
pub fn constants_of_the_standard()
    ensures { PAYLOAD_MAX ≡ payload_max }
{}

/// A stream has one reading at most: its packets and what is left behind them, or its packets and the fault behind them.
pub fn one_reading<F: Framing>()
    ensures stream { (form : F) (packets others : List (List ℕ)) (rest other bytes : List ℕ)
        → Stream (F.form form) packets rest bytes → Stream (F.form form) others other bytes → (packets ≡ others) × (rest ≡ other) }
    ensures apart { (form : F) (packets others : List (List ℕ)) (rest bytes : List ℕ) (fault : Shown)
        → Stream (F.form form) packets rest bytes → Faulty (F.form form) others fault bytes → ⊥ }
    ensures fault { (form : F) (packets others : List (List ℕ)) (one other : Shown) (bytes : List ℕ)
        → Faulty (F.form form) packets one bytes → Faulty (F.form form) others other bytes → (packets ≡ others) × (one ≡ other) }
{}

/// A stream goes on: behind frames stands a frame, which is read again, whatever follows it, and a fault lasts.
pub fn streams_go_on<F: Framing>()
    ensures begins { (form : F) → Stream (F.form form) [] [] [] }
    ensures frame { (form : F) (packets : List (List ℕ)) (packet frames front : List ℕ)
        → Frames (F.form form) 0 packets frames → Frame (F.form form) (number_after (length packets)) packet front
        → Frames (F.form form) 0 (packets ++ packet ∷ []) (frames ++ front) }
    ensures read_again { (form : F) (packets : List (List ℕ)) (packet frames front rest : List ℕ)
        → Frames (F.form form) 0 packets frames → Frame (F.form form) (number_after (length packets)) packet front
        → Begins (F.form form) (packets ++ packet ∷ []) (frames ++ front ++ rest) }
    ensures lasts { (form : F) (packets : List (List ℕ)) (fault : Shown) (bytes more : List ℕ)
        → Faulty (F.form form) packets fault bytes → Faulty (F.form form) packets fault (bytes ++ more) }
{}

/// A fresh buffer stands for a stream of no byte, and one that was given a piece for the stream with that piece
/// behind it.
pub fn buffers_stand<F: Framing>()
    ensures fresh { (form : F) → Stands (F.form form) nothing [] [] }
    ensures fed { (form : F) (held : Held) (packets : List (List ℕ)) (bytes piece : List ℕ)
        → Stands (F.form form) held packets bytes → Stands (F.form form) (with_piece piece held) packets (bytes ++ piece) }
{}
