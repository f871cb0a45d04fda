//! The words behind the first, where they are few.

ghost use Rattle.std.specs.Prelude.{◌≡◌, [], IsTrue, ◌↔◌};
ghost use Rattle.std.specs.Option.{option_map};
ghost use Rattle.sched_text.specs.Reading.{few, is_server, listed, one_number, two_numbers};

use crate::words::{Words, number_of};

/// At most two words.
#[derive(Clone, Copy)]
pub(crate) enum Arguments<'a> {
    Nothing,
    One(&'a [u8]),
    Two(&'a [u8], &'a [u8]),
}

/// The words that are left, where they are at most two.
pub(crate) fn arguments_of<'a>(mut words: Words<'a>) -> Option<Arguments<'a>>
    ensures { option_map listed result ≡ few words.entry }
{
    let Some(first) = words.next() else {
        return Some(Arguments::Nothing);
    };
    let Some(second) = words.next() else {
        return Some(Arguments::One(first));
    };
    match words.next() {
        Some(_) => None,
        None => Some(Arguments::Two(first, second)),
    }
}

/// Whether the word is `server`.
pub(crate) fn is_server_word(word: &[u8]) -> bool
    ensures { result ≡ is_server word.now }
{
    word == b"server".as_slice()
}

/// The number that stands alone.
pub(crate) fn one_of(arguments: Arguments<'_>) -> Option<u64>
    ensures { result ≡ one_number (listed arguments.entry) }
{
    match arguments {
        Arguments::One(word) => number_of(word),
        _ => None,
    }
}

/// The two numbers.
pub(crate) fn two_of(arguments: Arguments<'_>) -> Option<(u64, u64)>
    ensures { result ≡ two_numbers (listed arguments.entry) }
{
    match arguments {
        Arguments::Two(first, second) => Some((number_of(first)?, number_of(second)?)),
        _ => None,
    }
}
