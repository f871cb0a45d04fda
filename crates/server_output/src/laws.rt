//! Laws of the definitions that the contracts stand on, each the contract of a function that does nothing.

ghost use Rattle.std.specs.Prelude.{◌≡◌, ◌≤◌, ◌+◌, ◌++◌, ℕ, List, length, fold, map};
ghost use Rattle.salt_line.specs.declared.salt_line.SaltRow.{SaltRow};
ghost use Rattle.msg_ids.specs.Counters.{Counters};
ghost use Rattle.service_tl.specs.declared.lists.Message.{Message};
ghost use Rattle.service_tl.specs.declared.item.Item.TheVariants.{RpcResult, Pong, NewSessionCreated, MsgsAck, MsgsStateInfo, BadMsgNotification, BadServerSalt, DestroySessionOk, DestroySessionNone};
ghost use Rattle.service_tl.specs.Items.{ItemFits, spelling_of};
ghost use Rattle.service_tl.specs.Words.{IsWords};
ghost use Rattle.auth_keys.specs.declared.ring.RingKey.{RingKey};
ghost use Rattle.envelope.specs.Packet.{Lock, least_padding};
ghost use Rattle.packing.specs.Packing.{groups, packets_of};
ghost use Rattle.server_rules.specs.Event.{Sent, Setting, Speaker};
ghost use Rattle.server_rules.specs.Sending.{padding_bytes, seals};
ghost use Rattle.server_output.specs.declared.outs.Out.{Out};
ghost use Rattle.server_output.specs.declared.said.Outgoing.{Outgoing};
ghost use Rattle.server_output.specs.Items.{CanBeSaid, acks_bytes, bad_salt_bytes, destroyed_bytes, item_of, new_session_bytes, notice_bytes, pong_bytes, result_bytes, said_bytes, salts_bytes, salts_item, states_bytes};
ghost use Rattle.server_output.specs.Dues.{bodies_bytes};
ghost use Rattle.server_output.specs.Batch.{packets_most};
ghost use Rattle.server_output.specs.Outs.{AreSent, draw_after_sent, sent_of};

use draws::Draw;
use service_tl::laws::items_are_words;
use tl_codec::laws::sizes_of_spellings;

/// How many bytes the body of each item has that a server says.
pub fn sizes_of_items()
    ensures new_session { (first unique salt : ℕ) → ItemFits (NewSessionCreated first unique salt) → length (spelling_of (NewSessionCreated first unique salt)) ≡ new_session_bytes }
    ensures acks { (ids : List ℕ) → ItemFits (MsgsAck ids) → length (spelling_of (MsgsAck ids)) ≡ acks_bytes (length ids) }
    ensures notice { (number seq code : ℕ) → ItemFits (BadMsgNotification number seq code) → length (spelling_of (BadMsgNotification number seq code)) ≡ notice_bytes }
    ensures bad_salt { (number seq code salt : ℕ) → ItemFits (BadServerSalt number seq code salt) → length (spelling_of (BadServerSalt number seq code salt)) ≡ bad_salt_bytes }
    ensures pong { (message ping : ℕ) → ItemFits (Pong message ping) → length (spelling_of (Pong message ping)) ≡ pong_bytes }
    ensures salts { (request now : ℕ) (rows : List SaltRow) → ItemFits (salts_item request now rows) → length (spelling_of (salts_item request now rows)) ≡ salts_bytes (length rows) }
    ensures states { (request : ℕ) (info : List ℕ) → ItemFits (MsgsStateInfo request info) → length (spelling_of (MsgsStateInfo request info)) ≡ states_bytes (length info) }
    ensures states_at_most { (count : ℕ) → states_bytes count ≤ count + 19 }
    ensures ended { (session : ℕ) → ItemFits (DestroySessionOk session) → length (spelling_of (DestroySessionOk session)) ≡ destroyed_bytes }
    ensures no_session { (session : ℕ) → ItemFits (DestroySessionNone session) → length (spelling_of (DestroySessionNone session)) ≡ destroyed_bytes }
    ensures result { (call : ℕ) (content : List ℕ) → ItemFits (RpcResult call content) → length (spelling_of (RpcResult call content)) ≡ result_bytes (length content) }
{
    sizes_of_spellings();
}

/// Messages make as many packets as `packets_most` says at most.
pub fn packets_are_few()
    ensures packets { (now : ℕ) (counters : Counters) (messages : List Message) → length (packets_of now counters messages) ≡ length (groups messages) }
    ensures few { (messages : List Message) (count bytes : ℕ) → length messages ≤ count → bodies_bytes messages ≤ bytes → length (groups messages) ≤ packets_most count bytes }
{}

/// What `send` seals is what the rules of a server say that a session seals, under its key, its number and a salt; and the
/// rules pad as a seal does.
pub fn sent_as_the_rules_say<D: Draw>()
    ensures sealed { (setting : Setting D) (salt : ℕ) (speaker : Speaker D) (messages : List Message) → fold (seals setting salt) speaker messages
        ≡ record speaker {
          draw = draw_after_sent setting.step messages speaker.draw;
          sent = speaker.sent ++ sent_of setting.step (record { key = speaker.session.key; session = speaker.session.number; salt = salt }) messages speaker.draw;
        } }
    ensures padded { (body : ℕ) → padding_bytes body ≡ least_padding body }
{}

/// As many packets go out as are sent.
pub fn sent_one_for_one()
    ensures { (lock : Lock) (ring : List RingKey) (sent : List Sent) (outs : List Out) → AreSent lock ring sent outs → length sent ≡ length outs }
{}

// What is said has so many bytes, which are whole words and can go in a packet.
pub(crate) fn sizes_of_said()
    ensures size { (said : Outgoing) → ItemFits (item_of said) → length (spelling_of (item_of said)) ≡ said_bytes said }
    ensures words { (said : Outgoing) → CanBeSaid said → ItemFits (item_of said) → IsWords (spelling_of (item_of said)) }
    ensures short { (said : Outgoing) → CanBeSaid said → said_bytes said ≤ 1044480 }
{
    sizes_of_spellings();
    items_are_words();
}
