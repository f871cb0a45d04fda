//! Bindings: a message that was made outside, the worked rows, what no clause says, and each call once.

ghost use Rattle.std.specs.Prelude.{◌≡◌, ◌<◌, ◌^◌, length, Ok, IsTrue, IfOk};
ghost use Rattle.temp_keys.specs.Checking.{IsPermanent, is_temporary};

use crate::digits::array_of;
use crate::rows::{Asked, are_so};
use auth_keys::{AuthKey, Ring};
use draws::{Draw, StepDraw};
use msg_ids::Moment;
use octets::{Memory, Octets};
use std::alloc::Global;
use std::test::Fail;
use temp_keys::{BindFault, Binding, Bound, Inner, InnerField, bind_message, check};
use test_asserts::{holds, same, same_at, shown, tells};
use test_keys::{KEY_ID, TEMP_ID, both_keys, bytes_from_0_to_255};
use test_lines::bytes_of;

const NUMBER: u64 = 0x65a1_b2c3_d4e5_f608;

const INNER: Inner = Inner {
    nonce: 0x0123_4567_89ab_cdef,
    temp: TEMP_ID,
    perm: KEY_ID,
    session: 0xfedc_ba98_7654_3210,
    expires: 7_200,
};

// The message of this number and inner object, with the words of a `StepDraw` as its random bytes. It was made with
// Python: the equations of the derivation over hashlib's SHA-1, and infinite garble extension block by block over
// `openssl enc -aes-256-ecb -nopad` of OpenSSL 3.
const MESSAGE: &str = "\
32d1586ea457dfc8db36cfb2466c439c72908336c33a1935b5c2556411ce2644\
3337d289081e8816c9b7c929d20dd123244a356cc56c46ee0cf7a5ad56bf6266\
acc6546e216f54051917002a261a7c7bd0e4f2da3a05ba1a6aa87dee508241ed\
3cfbd34b60e3f6fb";

#[test]
fn message_made_outside(rt: HostRuntime) -> Result<(), Fail> {
    let message = bind_message(
        rt.alloc(),
        &AuthKey::new(&bytes_from_0_to_255()),
        NUMBER,
        &INNER,
        &mut StepDraw::new(),
    )?;
    let digits = hex::encode(rt.alloc(), message.as_slice());
    drop(message);
    same(digits?.as_str(), MESSAGE)
}

// The message. No contract says what it is: such a list is computed by all that looks at it.
fn message(alloc: Global) -> Result<Octets, Fail> {
    bytes_of(alloc, MESSAGE)
}

// An answer, and its call. The call has the key that is named in it, the number of its message, the nonce, the temporary key, the
// session, when it expires, and when it comes; a word stands for what the message has there, and `perm` and `temp` for the keys.
const ANSWERS: &str = "\
Ok(Bound { temp: 1390049393749643670, perm: 14474384091129631026, expires: 7200 }) | perm number nonce temp session 7200 7199\n\
Err(NoPerm) | 7 number nonce temp session 7200 7199\n\
Err(NoPerm) | temp number nonce temp session 7200 7199\n\
Err(Field { which: Number }) | perm 8 8 temp session 7200 7199\n\
Err(Field { which: Nonce }) | perm number 8 temp 8 7200 7199\n\
Err(Field { which: Temp }) | perm number nonce perm session 7200 7199\n\
Err(Field { which: Session }) | perm number nonce temp 8 8 7199\n\
Err(Field { which: Expires }) | perm number nonce temp session 8 8\n\
Err(Expired) | perm number nonce temp session 7200 7200\n";

fn number_of(word: &str) -> Result<u64, Fail> {
    match word {
        "perm" => Ok(KEY_ID),
        "temp" => Ok(TEMP_ID),
        "number" => Ok(NUMBER),
        "nonce" => Ok(INNER.nonce),
        "session" => Ok(INNER.session),
        _ => Ok(word.parse::<u64>()?),
    }
}

// The numbers of a call.
fn numbers_of(words: &str) -> Result<[u64; 7], Fail> {
    holds(words.split(' ').count() == 7)?;
    let mut numbers = [0; 7];
    for (number, word) in numbers.iter_mut().zip(words.split(' ')) {
        *number = number_of(word)?;
    }
    Ok(numbers)
}

// The answer to a call with the message.
fn answer(alloc: Global, ring: &Ring, numbers: [u64; 7]) -> Result<Result<Bound, BindFault>, Fail> {
    let [perm, number, nonce, temp, session, expires, now] = numbers;
    let binding = Binding {
        perm,
        nonce,
        expires: u32::try_from(expires).ok().ok_or("a moment of 32 bits")?,
        message: message(alloc)?,
    };
    let answer = check(ring, Moment::new(now), temp, session, number, &binding);
    drop(binding);
    Ok(answer)
}

// The answer to a call of these words, as `{:?}` shows it.
fn shown_answer(alloc: Global, ring: &Ring, words: &str) -> Result<String, Fail> {
    let answer = answer(alloc, ring, numbers_of(words)?)?;
    Ok(shown(alloc, &answer)?)
}

/// The call of these words has this answer.
pub(crate) fn is_answered(alloc: Global, words: &str, want: &str) -> Result<(), Fail> {
    let ring = both_keys(alloc)?;
    let answer = shown_answer(alloc, &ring, words);
    drop(ring);
    same_at(words, answer?.as_str(), want)
}

#[test]
fn calls_and_their_answers(rt: HostRuntime) -> Result<(), Fail> {
    are_so(rt.alloc(), Asked::Binding, ANSWERS, 9)
}

// A binding with another message of such a call isn't sealed under the permanent key.
fn is_unsealed(ring: &Ring, message: Octets) -> Result<(), Fail> {
    let binding = Binding {
        perm: KEY_ID,
        nonce: INNER.nonce,
        expires: 7_200,
        message,
    };
    let answer = check(
        ring,
        Moment::new(0),
        TEMP_ID,
        INNER.session,
        NUMBER,
        &binding,
    );
    drop(binding);
    same(answer, Err(BindFault::Seal))
}

// The message with the lowest bit of this byte flipped.
fn flipped(alloc: Global, place: usize) -> Result<Octets, Fail> {
    let mut bytes: [u8; 104] = array_of(alloc, MESSAGE)?;
    if let Some(byte) = bytes.get_mut(place) {
        *byte ^= 1;
    }
    Ok(Octets::copy(alloc, &bytes)?)
}

// The message cut by a byte.
fn cut_message(alloc: Global) -> Result<Octets, Fail> {
    let mut message = message(alloc)?;
    message.truncate(103);
    Ok(message)
}

// The message with a byte behind it.
fn longer(alloc: Global) -> Result<Octets, Fail> {
    let mut message = message(alloc)?;
    message.push_all(alloc, &[0])?;
    Ok(message)
}

// A message cut, a longer one, and one with a bit flipped in the identifier, in the message key and in the text.
fn are_unsealed(alloc: Global, ring: &Ring) -> Result<(), Fail> {
    is_unsealed(ring, cut_message(alloc)?)?;
    is_unsealed(ring, longer(alloc)?)?;
    is_unsealed(ring, flipped(alloc, 0)?)?;
    is_unsealed(ring, flipped(alloc, 8)?)?;
    is_unsealed(ring, flipped(alloc, 103)?)
}

#[test]
fn other_messages(rt: HostRuntime) -> Result<(), Fail> {
    let ring = both_keys(rt.alloc())?;
    let done = are_unsealed(rt.alloc(), &ring);
    drop(ring);
    done
}

// Who makes a message and has it checked needs no lemma.
fn bound_again<D: Draw>(
    alloc: Global,
    ring: &Ring,
    now: Moment,
    perm: &AuthKey,
    number: u64,
    inner: &Inner,
    draw: &mut D,
) -> Result<Result<Bound, BindFault>, Memory>
    requires permanent { IsPermanent ring.now inner.now.perm perm.now }
    requires temporary { IsTrue (is_temporary ring.now inner.now.temp) }
    requires lasts { now < inner.now.expires }
    ensures { IfOk result (λ answer. answer ≡ Ok (record { temp = inner.now.temp; perm = inner.now.perm; expires = inner.now.expires })) }
{
    let message = bind_message(alloc, perm, number, inner, draw)?;
    let binding = Binding {
        perm: inner.perm,
        nonce: inner.nonce,
        expires: inner.expires,
        message,
    };
    Ok(check(ring, now, inner.temp, inner.session, number, &binding))
}

#[test]
fn faults_are_told(rt: HostRuntime) -> Result<(), Fail> {
    let alloc = rt.alloc();
    let rows = [
        (BindFault::NoPerm, "no permanent key has the identifier"),
        (
            BindFault::Seal,
            "the message isn't sealed under the permanent key",
        ),
        (
            BindFault::Field {
                which: InnerField::Number,
            },
            "msg_id of the message isn't that of the call",
        ),
        (
            BindFault::Field {
                which: InnerField::Nonce,
            },
            "nonce of the message isn't that of the call",
        ),
        (
            BindFault::Field {
                which: InnerField::Temp,
            },
            "temp_auth_key_id of the message isn't that of the call",
        ),
        (
            BindFault::Field {
                which: InnerField::Perm,
            },
            "perm_auth_key_id of the message isn't that of the call",
        ),
        (
            BindFault::Field {
                which: InnerField::Session,
            },
            "temp_session_id of the message isn't that of the call",
        ),
        (
            BindFault::Field {
                which: InnerField::Expires,
            },
            "expires_at of the message isn't that of the call",
        ),
        (BindFault::Expired, "the binding has expired"),
    ];
    for (fault, told) in rows {
        tells(alloc, &fault, told)?;
    }
    Ok(())
}
