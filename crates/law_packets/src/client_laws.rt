//! Laws of the packets that a client makes, each the contract of a function that does nothing.

ghost use Rattle.std.specs.Prelude.{◌≡◌, ◌<◌, ◌^◌, ℕ, Bool, true, Option};
ghost use Rattle.client_rules.specs.Client.{Client, Temporary};
ghost use Rattle.client_rules.specs.Events.{Event, Run, made, step};
ghost use Rattle.client_rules.specs.Flush.{flush};
ghost use Rattle.client_rules.specs.Sending.{Setting};
ghost use Rattle.law_packets.specs.Steady.{IsFair, IsFit, IsSteady, IsTemporary, MayGo};

use draws::Draw;

/// A client that is made under a known key is steady, and each event leaves it so; and the packet of a flush may be sealed: a
/// flush that sends had room for 2,048 numbers, and gives 1,021 at most.
pub fn packets_may_be_sealed<D: Draw>()
    ensures made { (known : ℕ → Bool) (setting : Setting D) (key : ℕ) (temporary : Option Temporary) (draw : D) → IsFit setting → known key ≡ true → key < 2 ^ 64
        → IsTemporary temporary → IsSteady known (made setting key temporary draw).client }
    ensures event { (known : ℕ → Bool) (setting : Setting D) (run : Run D) (event : Event) → IsFit setting → IsFair event → IsSteady known run.client
        → IsSteady known (step setting run event).client }
    ensures flush { (known : ℕ → Bool) (setting : Setting D) (now : ℕ) (client : Client) (draw : D) → IsFit setting → IsSteady known client
        → IsSteady known (flush setting now client draw).client }
    ensures packet { (known : ℕ → Bool) (setting : Setting D) (now : ℕ) (client : Client) (draw : D) → IsFit setting → IsSteady known client
        → MayGo known (flush setting now client draw).answer }
{
    service_tl::laws::items_fit();
    containers::laws::parts_are_exact();
    containers::laws::container_sizes();
    msg_ids::laws::room_lasts();
    containers::laws::inner_bodies_are_bytes();
    envelope::laws::drawn_padding_is_lawful::<D>();
}
