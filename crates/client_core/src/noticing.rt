//! What a notice changes.

ghost use Rattle.std.specs.Prelude.{◌≡◌};
ghost use Rattle.client_rules.specs.Taking.{fate_noticed};

use crate::core_client::Core;
use crate::rebinding::{binding_noticed, has_asked, mark_binding};
use call_table::{Cause, Fate};
use client_calls::mark_inner;
use service_tl::codes::{FORGOTTEN, NUMBER_TOO_HIGH, NUMBER_TOO_LOW, WRONG_SALT};

/// What becomes of a call by a notice on its number.
fn fate_noticed(code: u32) -> Fate
    ensures { result ≡ fate_noticed code }
{
    match code {
        NUMBER_TOO_LOW | WRONG_SALT => Fate::Queue,
        NUMBER_TOO_HIGH => Fate::Hold,
        FORGOTTEN => Fate::Unknown(Cause::Forgotten),
        _ => Fate::Refused(code),
    }
}

impl Core {
    ghost use Rattle.std.specs.Prelude.{◌≡◌, ℕ, Some, IfSome, OnSome, None, true, false, List, option_map, fold, length};
    ghost use Rattle.call_table.specs.Kept.{state_in};
    ghost use Rattle.call_table.specs.Table.{IsGiven, Sent, inner_of, owner};
    ghost use Rattle.client_rules.specs.Client.{Client, calls_of, with_binding};
    ghost use Rattle.client_rules.specs.Taking.{alone_among, alone_number, becomes, binding_noticed, has_asked, noticed, packet_noticed, takes_over, with_notice_clock, with_notice_salt};
    ghost use Rattle.client_core.specs.Kept.{Stands};

    /// The clock and the salt are taken over from a notice, where it has them.
    fn take_over(&mut self, outer: u64, code: u32, salt: Option<u64>)
        ensures stands { (client : Client) → Stands self.old client → Stands self.new (with_notice_salt salt (with_notice_clock outer code client)) }
        ensures calls { self.new.calls ≡ self.old.calls }
        ensures temporary { self.new.rest.temporary ≡ self.old.rest.temporary }
        ensures room { self.new.room ≡ self.old.room }
        ensures learnt { self.new.rest.learnt ≡ self.old.rest.learnt }
    {
        if code == NUMBER_TOO_LOW || code == NUMBER_TOO_HIGH {
            self.take_clock(outer);
        }
        if let Some(salt) = salt {
            self.salt = salt;
        }
    }

    /// What stands in a packet that was refused is to be sent again; nothing, where it isn't remembered.
    fn notice_packet(&mut self, about: u64) -> bool
        ensures packet { (client : Client) → Stands self.old client → (numbers : List ℕ) → inner_of about client.table.packets ≡ Some numbers
            → (result ≡ true) × Stands self.new (packet_noticed numbers client) }
        ensures none { (client : Client) → Stands self.old client → inner_of about client.table.packets ≡ None → (result ≡ false) × Stands self.new client }
        ensures room { self.new.room ≡ self.old.room }
        ensures learnt { self.new.rest.learnt ≡ self.old.rest.learnt }
    {
        let Some(inner) = self.calls.inner(about) else {
            return false;
        };
        mark_binding(&mut self.temporary, inner.ids());
        mark_inner(&mut self.calls, about);
        true
    }

    /// What a notice on a number changes that no call is outstanding under.
    fn notice_other(&mut self, outer: u64, about: u64, code: u32, salt: Option<u64>)
        ensures stands { (client : Client) → Stands self.old client → owner about (calls_of client) ≡ None
            → Stands self.new (noticed outer (record { about = about; code = code; salt = salt }) client) }
        ensures room { self.new.room ≡ self.old.room }
        ensures learnt { self.new.rest.learnt ≡ self.old.rest.learnt }
    {
        if has_asked(&self.temporary, about) {
            self.take_over(outer, code, salt);
            self.rebind(binding_noticed(code));
        } else if self.notice_packet(about) {
            self.take_over(outer, code, salt);
        }
    }

    /// The message of this number is refused, for the reason of the code, in a packet with this outer number.
    pub(crate) fn notice(&mut self, outer: u64, about: u64, code: u32, salt: Option<u64>)
        ensures stands { (client : Client) → Stands self.old client → Stands self.new (noticed outer (record { about = about; code = code; salt = salt }) client) }
        ensures room { self.new.room ≡ self.old.room }
        ensures learnt { self.new.rest.learnt ≡ self.old.rest.learnt }
    {
        if let Some(call) = self.calls.owner(about) {
            self.take_over(outer, code, salt);
            self.settle_call(call, fate_noticed(code));
        } else {
            self.notice_other(outer, about, code, salt);
        }
    }
}
