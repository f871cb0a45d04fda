//! What the values of options say.

ghost use Rattle.std.specs.Prelude.{◌≡◌, ◌≢◌, ◌<◌, ◌≤◌, ◌^◌, ◌↔◌, ℕ, List, None, Some, IsTrue, IfOk, IfErr, IfSome, IfNone, decimal, option_map};
ghost use Rattle.commands.specs.Values.{HasText, MayHaveText, HasFlag, HasNumber, MayHaveNumber, HasId, MayHaveId, HasForm, HasSecret, IsSecret, form_text, id_text, text_of};
ghost use Rattle.transport.specs.declared.form.Form.{Form};

use crate::command::{FileName, Secret, WordsFault};
use crate::simple::Taken;
use itoa::Buffer;
use transport::Form;

impl<'a> Taken<'a> {
    /// The text of an argument that has to be there.
    pub(crate) fn needed(&self, name: &str) -> Result<&'a str, WordsFault>
        ensures found { IfOk result (λ text. HasText name.now self.now text.now) }
        ensures refused { IfErr result (λ _. text_of name.now self.now ≡ None) }
    {
        match self.text(name) {
            Some(text) => Ok(text),
            None => Err(WordsFault::Refused),
        }
    }

    /// The file that an argument names, which may be left out.
    pub(crate) fn may_file(&self, name: &str) -> Option<FileName<'a>>
        ensures { MayHaveText name.now self.now result }
    {
        match self.text(name) {
            Some(text) => Some(FileName::new(text)),
            None => None,
        }
    }

    /// Whether a flag is there.
    pub(crate) fn flag(&self, name: &str) -> bool
        ensures { HasFlag name.now self.now result }
    {
        match self.text(name) {
            Some(text) => text == "true",
            None => false,
        }
    }

    /// The number of an argument, which has to lie in a range.
    pub(crate) fn number(&self, name: &str, least: u64, most: u64) -> Result<u64, WordsFault>
        ensures found { IfOk result (HasNumber name.now least most self.now) }
        ensures refused { IfErr result (λ _. (number : ℕ) → HasNumber name.now least most self.now number → ⊥) }
    {
        let text = self.needed(name)?;
        number_in(text, least, most)
    }

    /// The number of an argument that may be left out, which has to lie in a range.
    pub(crate) fn may_number(
        &self,
        name: &str,
        least: u64,
        most: u64,
    ) -> Result<Option<u64>, WordsFault>
        ensures found { IfOk result (MayHaveNumber name.now least most self.now) }
        ensures refused { IfErr result (λ _. (number : _) → MayHaveNumber name.now least most self.now number → ⊥) }
    {
        match self.text(name) {
            Some(text) => Ok(Some(number_in(text, least, most)?)),
            None => Ok(None),
        }
    }

    /// The identifier of an argument.
    pub(crate) fn id(&self, name: &str) -> Result<u64, WordsFault>
        ensures found { IfOk result (HasId name.now self.now) }
        ensures refused { IfErr result (λ _. (id : ℕ) → HasId name.now self.now id → ⊥) }
    {
        let text = self.needed(name)?;
        id_of(text).ok_or(WordsFault::Refused)
    }

    /// The identifier of an argument that may be left out.
    pub(crate) fn may_id(&self, name: &str) -> Result<Option<u64>, WordsFault>
        ensures found { IfOk result (MayHaveId name.now self.now) }
        ensures refused { IfErr result (λ _. (id : _) → MayHaveId name.now self.now id → ⊥) }
    {
        match self.text(name) {
            Some(text) => match id_of(text) {
                Some(id) => Ok(Some(id)),
                None => Err(WordsFault::Refused),
            },
            None => Ok(None),
        }
    }

    /// The form of framing of an argument.
    pub(crate) fn form(&self, name: &str) -> Result<Form, WordsFault>
        ensures found { IfOk result (HasForm name.now self.now) }
        ensures refused { IfErr result (λ _. (form : Form) → HasForm name.now self.now form → ⊥) }
    {
        let text = self.needed(name)?;
        form_of(text).ok_or(WordsFault::Refused)
    }

    /// The secret of an argument.
    pub(crate) fn secret(&self, name: &str) -> Result<Secret, WordsFault>
        ensures found { IfOk result (HasSecret name.now self.now) }
        ensures refused { IfErr result (λ _. (secret : List ℕ) → HasSecret name.now self.now secret → ⊥) }
    {
        let text = self.needed(name)?;
        secret_of(text).ok_or(WordsFault::Refused)
    }
}

/// The secret that a text spells: 32 hexadecimal digits, of either case.
fn secret_of(text: &str) -> Option<Secret>
    ensures found { IfSome result (IsSecret text.now) }
    ensures none { IfNone result ((secret : List ℕ) → IsSecret text.now secret → ⊥) }
{
    let mut bytes = [0; 16];
    hex::decode_to_slice(text, &mut bytes).ok()?;
    Some(Secret::new(bytes))
}

/// The number that a text spells, which has to lie in a range.
fn number_in(text: &str, least: u64, most: u64) -> Result<u64, WordsFault>
    ensures found { IfOk result (λ number. (least ≤ number) × (number ≤ most) × (text.now ≡ decimal number)) }
    ensures refused { IfErr result (λ _. (number : ℕ) → least ≤ number → number ≤ most → text.now ≢ decimal number) }
{
    match number_of(text) {
        Some(number) if least <= number && number <= most => Ok(number),
        _ => Err(WordsFault::Refused),
    }
}

/// The number that a text spells: in decimal, with no sign and no leading zero, below 2^64.
fn number_of(text: &str) -> Option<u64>
    ensures found { IfSome result (λ number. (number < 2 ^ 64) × (text.now ≡ decimal number)) }
    ensures none { IfNone result ((number : ℕ) → number < 2 ^ 64 → text.now ≢ decimal number) }
{
    let number = text.parse::<u64>().ok()?;
    let mut buffer = Buffer::new();
    (buffer.format(number) == text).then_some(number)
}

/// The identifier that a text spells: 16 lower case hexadecimal digits, two a byte, the least byte first.
fn id_of(text: &str) -> Option<u64>
    ensures found { IfSome result (λ id. (id < 2 ^ 64) × (text.now ≡ id_text id)) }
    ensures none { IfNone result ((id : ℕ) → id < 2 ^ 64 → text.now ≢ id_text id) }
{
    let mut bytes = [0; 8];
    hex::decode_to_slice(text, &mut bytes).ok()?;
    let id = u64::from_le_bytes(bytes);
    let mut digits = [0; 16];
    hex::encode_to_slice(&id.to_le_bytes(), &mut digits).ok()?;
    (digits.as_slice() == text.as_bytes()).then_some(id)
}

/// The form of framing that a text names.
fn form_of(text: &str) -> Option<Form>
    ensures found { IfSome result (λ form. text.now ≡ form_text form) }
    ensures none { IfNone result ((form : Form) → text.now ≢ form_text form) }
{
    match text {
        "abridged" => Some(Form::Abridged),
        "intermediate" => Some(Form::Intermediate),
        "padded" => Some(Form::Padded),
        "full" => Some(Form::Full),
        _ => None,
    }
}
