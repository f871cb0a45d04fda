//! The clients of a world, lent one by one.

use client_core::Holder;
use sim_clients::Seats;
use sim_text::Clients;

/// Clients, to be told.
#[derive(Clone, Copy)]
pub(crate) struct Seated<'a> {
    pub(crate) seats: &'a Seats,
}

impl Clients for Seated<'_> {
    ghost use Rattle.sim_clients.specs.Standing.{Stand};

    ghost stands = { λ seated seats. Stand seated.seats.now seats };

    fn client_count(&self) -> usize {
        self.seats.len()
    }

    fn holder_at(&self, place: usize) -> Option<&Holder> {
        if place >= self.seats.len() {
            return None;
        }
        self.seats.holder(place + 1)
    }
}
