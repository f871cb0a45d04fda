//! The framings of an obfuscated connection.

ghost use Rattle.std.specs.Prelude.{◌≡◌, ◌≢◌, ℕ, IfSome, IfNone, List};
ghost use Rattle.obfus.specs.Starts.{tag_bytes};
ghost use Rattle.obfus.specs.declared.tag.Tag as tags;

/// The framing inside an obfuscated connection. The full form isn't obfuscated.
#[derive(Clone, Copy, Debug, PartialEq, Eq)]
pub enum Tag {
    /// The abridged form, `efefefef`.
    Abridged,
    /// The intermediate form, `eeeeeeee`.
    Intermediate,
    /// The padded form, `dddddddd`.
    Padded,
}

impl Tag {
    /// The bytes of the tag.
    pub(crate) fn bytes(self) -> [u8; 4]
        ensures { result ≡ tag_bytes self }
    {
        match self {
            Tag::Abridged => [0xef; 4],
            Tag::Intermediate => [0xee; 4],
            Tag::Padded => [0xdd; 4],
        }
    }

    /// The tag of these bytes.
    pub(crate) fn of(bytes: [u8; 4]) -> Option<Tag>
        ensures found { IfSome result (λ tag. bytes ≡ tag_bytes tag) }
        ensures none { IfNone result ((tag : tags.Tag) → bytes ≢ tag_bytes tag) }
    {
        if bytes == Tag::Abridged.bytes() {
            Some(Tag::Abridged)
        } else if bytes == Tag::Intermediate.bytes() {
            Some(Tag::Intermediate)
        } else if bytes == Tag::Padded.bytes() {
            Some(Tag::Padded)
        } else {
            None
        }
    }
}
