//! What the first bytes of a connection tell.

ghost use Rattle.std.specs.Prelude.{◌≡◌, ◌≢◌, ◌≤◌, length, None};
ghost use Rattle.obfus.specs.Starts.{begins_full};
ghost use Rattle.transport.specs.Starts.{form_of_tag, start_of};
ghost use Rattle.transport.specs.declared.form.Form.TheVariants.{Full};
ghost use Rattle.transport.specs.declared.start.Told.TheVariants.{Opens};
ghost use Rattle.transport.specs.Told.{TellsStart};

use crate::form::Form;
use crate::raw::START_MAX;
use cipher_modes::Ctr;
use obfus::{Init, Tag};

/// What the first bytes of a connection tell.
#[derive(Drop)]
pub(crate) enum Told {
    /// More of them are needed.
    Awaited,
    /// They name no form.
    Refused,
    /// A start of `start` bytes.
    Opens {
        start: usize,
        form: Form,
        up: Option<Ctr>,
        down: Option<Ctr>,
    },
}

// Whether bytes 4 to 7 are zero, as in a first frame of the full form.
fn begins_full(bytes: &[u8]) -> bool
    ensures { result ≡ begins_full bytes.now }
{
    bytes[bytes.len().min(4)..].starts_with(b"\0\0\0\0")
}

/// The form that a tag names.
pub fn form_of_tag(tag: Tag) -> Form
    ensures named { result ≡ form_of_tag tag }
    ensures not_full { result ≢ Full }
{
    match tag {
        Tag::Abridged => Form::Abridged,
        Tag::Intermediate => Form::Intermediate,
        Tag::Padded => Form::Padded,
    }
}

/// The tag of a form, which isn't the full one.
pub(crate) fn tag_of(form: Form) -> Tag
    requires { form ≢ Full }
    ensures { form_of_tag result ≡ form }
{
    match form {
        Form::Abridged => Tag::Abridged,
        Form::Intermediate => Tag::Intermediate,
        Form::Padded => Tag::Padded,
        Form::Full => unreachable!(),
    }
}

/// The bytes of a form's start, where it isn't obfuscated.
pub fn start_of(form: Form) -> &'static [u8]
    ensures { result.now ≡ start_of form }
{
    match form {
        Form::Abridged => b"\xef",
        Form::Intermediate => b"\xee\xee\xee\xee",
        Form::Padded => b"\xdd\xdd\xdd\xdd",
        Form::Full => b"",
    }
}

// The start of a form that isn't obfuscated.
fn plain(start: usize, form: Form) -> Told
    ensures { result ≡ Opens start form None None }
{
    Told::Opens {
        start,
        form,
        up: None,
        down: None,
    }
}

/// What the first bytes tell, at most 64 of them.
pub(crate) fn look_at(bytes: &[u8]) -> Told
    requires { length bytes.now ≤ 64 }
    ensures { TellsStart bytes.now result }
{
    if bytes.starts_with(b"\xef") {
        return plain(1, Form::Abridged);
    }
    if bytes.starts_with(b"\xee\xee\xee\xee") {
        return plain(4, Form::Intermediate);
    }
    if bytes.starts_with(b"\xdd\xdd\xdd\xdd") {
        return plain(4, Form::Padded);
    }
    if begins_full(bytes) {
        return plain(0, Form::Full);
    }
    if bytes.len() < START_MAX {
        return Told::Awaited;
    }
    let mut wire = [0; START_MAX];
    wire.copy_from_slice(bytes);
    match Init::read(&wire) {
        Ok(pair) => Told::Opens {
            start: START_MAX,
            form: form_of_tag(pair.tag),
            up: Some(pair.up),
            down: Some(pair.down),
        },
        Err(_fault) => Told::Refused,
    }
}
