//! What becomes of the binding of a temporary key.

ghost use Rattle.std.specs.Prelude.{◌≡◌, ◌==◌, ◌&&◌, length, option_map};
ghost use Rattle.tl_codec.specs.Standard.{bool_true};
ghost use Rattle.client_rules.specs.Asking.{begins};
ghost use Rattle.client_rules.specs.Client.{bound_so};
ghost use Rattle.client_rules.specs.Taking.{alone_among, binding_noticed, has_asked};
ghost use Rattle.client_core.specs.Asked.{needed_of};
ghost use Rattle.client_core.specs.Brought.{binding_by};
ghost use Rattle.client_core.specs.Kept.{binding_in, temporary_in};
ghost use Rattle.client_core.specs.Sound.{CanBind, CanGoAgain};

use crate::binding::{Binding, Temporary};
use byteorder::{ByteOrder, LittleEndian};
use service_tl::codes::{FORGOTTEN, NUMBER_TOO_HIGH, NUMBER_TOO_LOW, WRONG_SALT};
use tl_codec::BOOL_TRUE;

/// The bytes of a word.
const WORD_BYTES: usize = 4;

/// Whether the binding was asked for by the message of this number.
pub(crate) fn has_asked(temporary: &Option<Temporary>, number: u64) -> bool
    ensures { result ≡ has_asked number (option_map temporary_in temporary.now) }
{
    match temporary {
        None => false,
        Some(temporary) => temporary.is_asked_by(number),
    }
}

/// What is to be said of a temporary key whose binding is needed: the permanent key, and the first moment at which the
/// binding doesn't hold any more, in seconds of Unix time.
#[derive(Clone, Copy)]
pub(crate) struct Needed {
    pub(crate) perm: u64,
    pub(crate) expires: u32,
}

/// What is to be said, where the binding is needed.
pub(crate) fn need_of(temporary: &Option<Temporary>) -> Option<Needed>
    ensures { result ≡ needed_of (option_map temporary_in temporary.now) }
{
    match temporary {
        None => None,
        Some(temporary) => match temporary.binding {
            Binding::Needed => Some(Needed {
                perm: temporary.perm,
                expires: temporary.expires.seconds() as u32,
            }),
            _ => None,
        },
    }
}

/// Something becomes of the binding, where there is one.
pub(crate) fn set_binding(temporary: &mut Option<Temporary>, binding: Binding)
    ensures can_bind { CanGoAgain binding → CanBind temporary.new }
    ensures bound { option_map temporary_in temporary.new ≡ option_map (bound_so (binding_in binding)) (option_map temporary_in temporary.old) }
{
    if let Some(temporary) = temporary {
        temporary.binding = binding;
        temporary.is_alone = false;
    }
}

/// The binding is to be asked for again, where it was asked for under one of these numbers.
pub(crate) fn mark_binding(temporary: &mut Option<Temporary>, numbers: &[u64])
    ensures can_bind { CanBind temporary.old → CanBind temporary.new }
    ensures marked { option_map temporary_in temporary.new ≡ option_map (alone_among numbers.now) (option_map temporary_in temporary.old) }
{
    if let Some(temporary) = temporary {
        if temporary.is_asked_among(numbers) {
            temporary.is_alone = true;
        }
    }
}

/// Whether an answer is `boolTrue`.
fn is_true(answer: &[u8]) -> bool
    ensures { result ≡ (begins bool_true answer.now && (length answer.now == 4)) }
{
    answer.len() >= WORD_BYTES
        && LittleEndian::read_u32(answer) == BOOL_TRUE
        && answer.len() == WORD_BYTES
}

/// What becomes of a binding by the result of the message that asked for it, with the code of the error that it is.
pub(crate) fn binding_by(answer: &[u8], code: u32) -> Binding
    ensures can_go { CanGoAgain result }
    ensures bound { binding_in result ≡ binding_by answer.now code }
{
    if is_true(answer) {
        Binding::Bound
    } else {
        Binding::Refused(code)
    }
}

/// What becomes of a binding by a notice on the message that asked for it.
pub(crate) fn binding_noticed(code: u32) -> Binding
    ensures can_go { CanGoAgain result }
    ensures bound { binding_in result ≡ binding_noticed code }
{
    match code {
        NUMBER_TOO_LOW | FORGOTTEN | WRONG_SALT => Binding::Needed,
        NUMBER_TOO_HIGH => Binding::Held,
        _ => Binding::Refused(code),
    }
}

impl Temporary {
    ghost use Rattle.std.specs.Prelude.{◌≡◌};
    ghost use Rattle.std.specs.List.{list_any};
    ghost use Rattle.client_rules.specs.Taking.{is_asked_by};
    ghost use Rattle.client_core.specs.Kept.{binding_in};

    /// Whether the binding was asked for by the message of this number.
    fn is_asked_by(&self, number: u64) -> bool
        ensures { result ≡ is_asked_by number (binding_in self.now.binding) }
    {
        match &self.binding {
            Binding::Asked { number: asked, .. } => *asked == number,
            _ => false,
        }
    }

    /// Whether the binding was asked for by the message of one of these numbers.
    fn is_asked_among(&self, numbers: &[u64]) -> bool
        ensures { result ≡ list_any (λ number. is_asked_by number (binding_in self.now.binding)) numbers.now }
    {
        numbers.iter().any(|number| self.is_asked_by(*number))
    }
}
