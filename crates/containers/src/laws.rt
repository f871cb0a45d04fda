//! Laws of the definitions that the contracts stand on, each the contract of a function that does nothing.

ghost use Rattle.std.specs.Prelude.{◌≡◌, ◌≤◌, ◌+◌, ◌++◌, ◌∷◌, [], ℕ, List, length, IsTrue, Ok};
ghost use Rattle.std.specs.List.{AllByRecursion};
ghost use Rattle.octets.specs.Bytes.{IsBytes};
ghost use Rattle.service_tl.specs.declared.lists.Message.{Message};
ghost use Rattle.service_tl.specs.declared.item.Item.TheVariants.{MsgContainer};
ghost use Rattle.service_tl.specs.Items.{spelling_of, ItemFits};
ghost use Rattle.service_tl.specs.ItemOf.{item_of};
ghost use Rattle.service_tl.specs.Sizes.{AreSized, IsInRange};
ghost use Rattle.containers.specs.Container.{IsContainer, IsInner, KeepsRules, begins_container, bytes_max, constructor, container_head, container_of, message_head, messages_max, size_of};
ghost use Rattle.containers.specs.Parts.{parts_of};

use crate::limits::{
    CONTAINER_BYTES_MAX, CONTAINER_HEAD_BYTES, CONTAINER_MESSAGES_MAX, MESSAGE_HEAD_BYTES,
};
use service_tl::MSG_CONTAINER;
use service_tl::laws::items_again;

/// The constants of this crate are the limits and sizes that the definitions speak of.
pub fn constants_of_the_standard()
    ensures constructor { MSG_CONTAINER ≡ constructor }
    ensures messages_max { CONTAINER_MESSAGES_MAX ≡ messages_max }
    ensures bytes_max { CONTAINER_BYTES_MAX ≡ bytes_max }
    ensures container_head { CONTAINER_HEAD_BYTES ≡ container_head }
    ensures message_head { MESSAGE_HEAD_BYTES ≡ message_head }
{}

/// A body that begins as a container has parts exactly where it is a lawful container, and then they are
/// its messages.
pub fn parts_are_exact()
    ensures lawful { (number : ℕ) (messages : List Message) (body : List ℕ) → IsContainer number messages body → parts_of number body ≡ Ok messages }
    ensures only_lawful { (number : ℕ) (messages : List Message) (body : List ℕ) → IsBytes body → IsTrue (begins_container body)
        → parts_of number body ≡ Ok messages → IsContainer number messages body }
{}

/// What was put together of messages that are lawful inside has these messages as its parts.
pub fn packed_is_unfolded()
    ensures begins { (messages : List Message) → IsTrue (begins_container (container_of messages)) }
    ensures unfolded { (number : ℕ) (messages : List Message) → length messages ≤ messages_max → AllByRecursion (IsInner number) messages
        → parts_of number (container_of messages) ≡ Ok messages }
{}

/// How many bytes a container has, and how many more with one more message.
pub fn container_sizes()
    ensures whole { (messages : List Message) → length (container_of messages) ≡ size_of messages }
    ensures grown { (messages : List Message) (message : Message) → size_of (messages ++ message ∷ []) ≡ size_of messages + message_head + length message.body }
{}

/// A container's bytes are those of the item that it is, and are parsed as this item.
pub fn containers_are_items()
    ensures spelt { (messages : List Message) → container_of messages ≡ spelling_of (MsgContainer messages) }
    ensures parsed { (messages : List Message) → ItemFits (MsgContainer messages) → item_of (container_of messages) ≡ MsgContainer messages }
{
    items_again();
}

/// Messages of a `Messages`, of which each keeps the rules of a container with this number, are lawful inside.
pub fn inner_messages()
    ensures { (number : ℕ) (messages : List Message) → AreSized messages → AllByRecursion IsInRange messages
        → AllByRecursion (KeepsRules number) messages → AllByRecursion (IsInner number) messages }
{}

/// The messages of a container of bytes are bytes.
pub fn inner_bodies_are_bytes()
    ensures { (messages : List Message) → IsBytes (container_of messages) → AllByRecursion (λ message. IsBytes message.body) messages }
{}
