//! The packets of a bag, lent one by one.

ghost use Rattle.std.specs.Prelude.{◌≡◌};

use sim_server::{Bag, Packet};
use sim_text::Wire;

/// A bag, to be told.
#[derive(Clone, Copy)]
pub(crate) struct Packets<'a> {
    pub(crate) bag: &'a Bag,
}

impl Wire for Packets<'_> {
    ghost use Rattle.std.specs.Prelude.{map};
    ghost use Rattle.sim_report.specs.Bags.{bytes_in};

    ghost packets = { λ packets. map bytes_in packets.bag.now.made };

    fn packet_count(&self) -> u64 {
        self.bag.count()
    }

    fn packet_at(&self, place: u64) -> &[u8] {
        let _count = self.bag.count();
        match self.bag.packet(place + 1) {
            Some(Packet::Up(bytes)) => bytes,
            Some(Packet::Down { session: _, bytes }) => bytes,
            None => &[],
        }
    }
}
