//! A binding is asked for.

ghost use Rattle.std.specs.Prelude.{◌≡◌, ◌≤◌, ◌<◌, ◌+◌, ◌++◌, ◌∷◌, [], ℕ, List, IfOk, IfSome, IsSome, IsFalse, IsTrue, if◌then◌else◌, length};
ghost use Rattle.auth_keys.specs.Rings.{entry_of};
ghost use Rattle.draws.specs.Draws.{draw_after, next_bytes, word_after};
ghost use Rattle.service_tl.specs.Items.{spelling_of};
ghost use Rattle.service_tl.specs.declared.item.Item.TheVariants.{AuthBindTempAuthKey};
ghost use Rattle.temp_keys.specs.Messages.{binding_message, message_bytes};
ghost use Rattle.client_rules.specs.Client.{Client};
ghost use Rattle.client_core.specs.declared.rebinding.Needed.{Needed};
ghost use Rattle.client_core.specs.Asked.{HasNoRoom, HasRoom, asked_message, bind_body_bytes};

use auth_keys::AuthKey;
use draws::Draw;
use octets::{Buffer, Memory, Octets};
use service_tl::AUTH_BIND_TEMP_AUTH_KEY;
use std::alloc::Global;
use temp_keys::laws::sizes_of_messages;
use temp_keys::{Inner, MESSAGE_BYTES, bind_message_in};
use tl_codec::fill;
use tl_codec::laws::sizes_of_spellings;

/// The bytes of a binding message's plain text.
const PLAIN_BYTES: usize = 80;

/// The bytes of the body of a binding call.
pub(crate) const BODY_BYTES: usize = 132;

/// Room for a binding call: for its message, that message's plain text, and the body.
#[derive(Drop)]
pub(crate) struct BindRoom {
    message: Buffer,
    plain: Buffer,
    body: Buffer,
}

impl BindRoom {
    /// Takes that room where a binding is to be asked for, and else none.
    pub(crate) fn new(alloc: Global, is_needed: bool) -> Result<BindRoom, Memory>
        ensures enough { IfOk result (λ room. IsTrue is_needed → HasRoom room) }
        ensures none { IfOk result (λ room. IsFalse is_needed → HasNoRoom room) }
    {
        Ok(BindRoom {
            message: Buffer::new(alloc, if_needed(is_needed, MESSAGE_BYTES))?,
            plain: Buffer::new(alloc, if_needed(is_needed, PLAIN_BYTES))?,
            body: Buffer::new(alloc, if_needed(is_needed, BODY_BYTES))?,
        })
    }

    /// The body of the binding call of this number.
    pub(crate) fn body<D: Draw>(
        self,
        key: &AuthKey,
        number: u64,
        inner: &Inner,
        draw: &mut D,
    ) -> Octets
        requires room { HasRoom self }
        ensures body { result ≡ spelling_of (AuthBindTempAuthKey inner.now.perm inner.now.nonce inner.now.expires
            (binding_message key.now (next_bytes D.step 16 draw.old) number inner.now (next_bytes D.step 8 (draw_after D.step 2 draw.old)))) }
        ensures size { length result ≡ bind_body_bytes }
        ensures drawn { draw.new ≡ draw_after D.step 3 draw.old }
    {
        sizes_of_spellings();
        let BindRoom {
            message,
            plain,
            mut body,
        } = self;
        let message = bind_message_in(message, plain, key, number, inner, draw);
        fill::int(&mut body, AUTH_BIND_TEMP_AUTH_KEY);
        fill::long(&mut body, inner.perm);
        fill::long(&mut body, inner.nonce);
        fill::int(&mut body, inner.expires);
        fill::bytes(&mut body, message.as_slice());
        body.into_octets()
    }
}

/// So many where they are needed, and else none.
pub(crate) fn if_needed(is_needed: bool, count: usize) -> usize
    ensures { result ≡ (if is_needed then count else 0) }
{
    if is_needed { count } else { 0 }
}

/// The body of a binding call has 132 bytes, whatever is drawn. Does nothing.
pub(crate) fn sizes_of_bindings<D: Draw>()
    ensures { (key : List ℕ) (at : ℕ) (client : Client) (needed : Needed) (draw : D)
        → length (asked_message D.step key at client needed draw).body ≡ bind_body_bytes }
{
    sizes_of_spellings();
    sizes_of_messages();
}
