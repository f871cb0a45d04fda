//! What becomes no client and no server, and the status of each error.

use crate::client_exports::{client_under, client_under_temp, kfr_client_new, kfr_client_new_temp};
use crate::server_exports::{kfr_server_new, server_with};
use crate::status;
use kifzaro::{Error, Refusal, SubmitFault};
use std::alloc::Global;
use std::ptr;
use std::test::Fail;
use test_asserts::{same, same_at};
use test_keys::{KEY_ID, line};

/// The bytes of a row.
const ROW_BYTES: usize = 8;

/// Which end is to be made, of which text, with which of its keys, of how long a seed, and the status: c a client, t one under a temporary
/// key, s a server; k a key file of one key, n no key file, e an empty one; 1 its key, 0 another, twice; 0 a seed of 31 bytes, 1 of 32,
/// 2 of 33.
const ROWS: &[u8] = b"cn001 05ck100 07ck001 06ck101 00tk011 06tk101 06sn001 05sk002 07se001 00";

fn told<T: Drop>(made: Result<T, u32>) -> u32 {
    match made {
        Ok(_) => 0,
        Err(told) => told,
    }
}

fn made(alloc: Global, keys: &[u8], row: &[u8]) -> u32 {
    let [end, text, first, second, seed, ..] = row else {
        return 99;
    };
    let (keys, seed) = (text_of(keys, *text), seed_of(*seed));
    match *end {
        b'c' => told(client_under(alloc, keys, key(*first), seed)),
        b't' => told(client_under_temp(alloc, keys, key(*first), key(*second), 3, seed)),
        _ => told(server_with(alloc, keys, seed)),
    }
}

fn wanted(row: &[u8]) -> u32 {
    match row {
        [.., tens, ones] => number(*tens)
            .saturating_mul(10)
            .saturating_add(number(*ones)),
        _ => 99,
    }
}

fn text_of(keys: &[u8], letter: u8) -> &[u8] {
    match letter {
        b'k' => keys,
        b'n' => b"no keys",
        _ => b"",
    }
}

fn seed_of(digit: u8) -> &'static [u8] {
    match digit {
        b'0' => &[1; 31],
        b'1' => &[1; 32],
        _ => &[1; 33],
    }
}

fn key(digit: u8) -> u64 {
    if digit == b'1' { KEY_ID } else { 1 }
}

fn number(digit: u8) -> u32 {
    u32::from(digit.saturating_sub(b'0'))
}

#[test]
fn what_has_no_keys(rt: HostRuntime) -> Result<(), Fail> {
    let alloc = rt.alloc();
    let keys = line(alloc, "perm")?;
    for row in ROWS.chunks_exact(ROW_BYTES) {
        same_at(row, made(alloc, keys.as_bytes(), row), wanted(row))?;
    }
    Ok(())
}

#[test]
fn what_becomes_no_handle(rt: HostRuntime) -> Result<(), Fail> {
    let alloc = rt.alloc();
    let mut at = Box::new(alloc, ptr::null_mut())?;
    let statuses = [
        kfr_client_new(alloc, b"no keys", 1, &[1; 32], at.as_mut()),
        kfr_client_new_temp(alloc, b"no keys", 1, 2, 3, &[1; 32], at.as_mut()),
        kfr_server_new(alloc, b"no keys", &[1; 32], at.as_mut()),
    ];
    same(statuses, [5, 5, 5])
}

#[test]
fn each_error_has_its_status(_rt: HostRuntime) -> Result<(), Fail> {
    let told = [
        status::of(Error::Memory),
        status::of(Error::TooShort { needed: 1 }),
        status::of(Error::LongKeys { len: 1 }),
        status::of(Error::NoKey { key: 1 }),
        status::of(Error::Submit(SubmitFault::ServiceTag { tag: 1 })),
        status::of(Error::Submit(SubmitFault::NoSuchCall)),
        status::of(Error::Submit(SubmitFault::TooMany)),
        status::of(Error::Submit(SubmitFault::Memory)),
        status::of(Error::Ended),
        status::of(Error::NotSent),
        status::of(Error::Spent),
        status::of(Error::Refused(Refusal::Length { said: 1 })),
        status::of(Error::Refused(Refusal::Padding { bytes: 1 })),
    ];
    same(told, [1, 4, 5, 6, 8, 9, 10, 1, 11, 13, 15, 22, 23])
}
