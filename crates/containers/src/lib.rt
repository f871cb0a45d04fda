//! Containers: several messages in the body of one (core.telegram.org/mtproto/service_messages#containers).
//! `Parts` lends the inner messages of a lawful container, `unfold` copies them, and both tell the first
//! fault of another. `fits` and `container` put messages together. Contracts stand on `parts_of`, which
//! the laws tie to `IsContainer`.
#![tactic(auto)]

mod fault;
mod front;
pub mod laws;
mod limits;
mod packing;
mod part;
mod parts;
mod unfolding;

pub use fault::{ContainerFault, Why};
pub use front::is_container;
pub use limits::{
    CONTAINER_BYTES_MAX, CONTAINER_HEAD_BYTES, CONTAINER_MESSAGES_MAX, MESSAGE_HEAD_BYTES,
};
pub use packing::{container, container_into, container_of_parts, container_size, fits};
pub use part::Part;
pub use parts::Parts;
pub use service_tl::{Message, Messages};
pub use unfolding::{Unfolded, unfold};
