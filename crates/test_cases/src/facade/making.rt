//! A client and a server with their keys, and wires.

use crate::facade::telling::Text;
use kifzaro::{
    ChaChaDraw, Client, Error, Form, Framed, Moment, Next, Octets, RawStep, Seeded, Server, Wire,
};
use std::alloc::Global;
use std::test::Fail;
use test_keys::{KEY_ID, TEMP_ID, bytes_from_0_to_255, line};
use test_lines::Line;

/// The moment at which the temporary key expires.
const EXPIRES: u64 = 7200;

/// The moment of a case: an hour before that.
pub(crate) const NOW: u64 = 3600;

/// The lines of the permanent key and of the temporary one.
pub(crate) fn keys(alloc: Global) -> Result<String, Fail> {
    let perm = line(alloc, "perm")?;
    let mut bytes = bytes_from_0_to_255();
    bytes.reverse();
    let temp = hex::encode(alloc, bytes.as_slice())?;
    Ok(format!(in alloc; "{perm}\ntemp 7200 {temp}\n")?)
}

// A client under these keys: under a temporary one, where there is one that isn't 0.
fn client(alloc: Global, text: &[u8], temp: u64, perm: u64) -> Result<Client, Error> {
    if temp == 0 {
        return Client::new(alloc, text, perm, &[1; 32]);
    }
    Client::new_temp(alloc, text, temp, perm, Moment::new(EXPIRES), &[1; 32])
}

/// A client under the permanent key or the temporary one, of these keys.
pub(crate) fn client_of(alloc: Global, keys: &[u8], key: &str) -> Result<Client, Error> {
    client(alloc, keys, if key == "temp" { TEMP_ID } else { 0 }, KEY_ID)
}

/// A server with these keys.
pub(crate) fn server_of(alloc: Global, keys: &[u8]) -> Result<Server, Error> {
    Server::new(alloc, keys, &[2; 32])
}

// The identifier of a key by its name.
fn key_of(name: &str) -> u64 {
    match name {
        "perm" => KEY_ID,
        "temp" => TEMP_ID,
        "none" => 5,
        _ => 0,
    }
}

// What was made is told, and given back.
fn tells_made<T: Drop>(made: Result<T, Error>, word: &str, text: &mut Text) -> Result<(), Fail> {
    match made {
        Ok(_) => text.tell(word),
        Err(error) => text.tell_error(&error),
    }
}

// Whether there is a client under a temporary key, if one is named, and a permanent one.
fn makes(line: &mut Line<'_>, text: &mut Text) -> Result<(), Fail> {
    let keys = keys(line.alloc)?;
    let temp = key_of(line.word());
    let perm = key_of(line.word());
    tells_made(
        client(line.alloc, keys.as_bytes(), temp, perm),
        "a client",
        text,
    )
}

// Whether these bytes are a key file.
fn reads(line: &mut Line<'_>, text: &mut Text) -> Result<(), Fail> {
    let keys = line.bytes()?;
    tells_made(server_of(line.alloc, keys.as_slice()), "a server", text)
}

// The bytes by which a client opens a connection, in intermediate frames, and the frame of a packet behind them.
fn framed(alloc: Global, obfuscate: bool, packet: &[u8]) -> Result<Octets, Fail> {
    let mut draw = ChaChaDraw::at(&[3; 32], 0);
    let (mut wire, mut bytes) = Wire::client(alloc, Form::Intermediate, obfuscate, &mut draw)?;
    if packet.len() % 4 != 0 || packet.len() < 4 || packet.len() > 64 {
        return Err(Fail::new("no packet"));
    }
    wire.put(alloc, packet, &mut bytes)?;
    Ok(bytes)
}

// A server's end after these bytes.
fn opened(alloc: Global, bytes: &[u8]) -> Result<Wire<Framed>, Fail> {
    match Wire::server().feed(alloc, bytes) {
        RawStep::Framed(wire) => Ok(wire),
        RawStep::Raw(_) | RawStep::Start { .. } | RawStep::Memory(_) => Err(Fail::new("no form")),
    }
}

// A packet goes over a wire, obfuscated or not.
fn carries(line: &mut Line<'_>, obfuscate: bool, text: &mut Text) -> Result<(), Fail> {
    let packet = line.bytes()?;
    let bytes = framed(line.alloc, obfuscate, packet.as_slice())?;
    let mut wire = opened(line.alloc, bytes.as_slice())?;
    match wire.next() {
        Next::Packet(packet) => text.tell_bytes("packet", packet),
        Next::More => text.tell("more"),
        Next::Fault(_) => text.tell("fault"),
    }
}

/// Something is made apart from the pair: whether the line told that.
pub(crate) fn is_made(line: &mut Line<'_>, text: &mut Text) -> Result<bool, Fail> {
    match line.verb {
        "client" => makes(line, text)?,
        "keys" => reads(line, text)?,
        "wire" => carries(line, false, text)?,
        "veiled" => carries(line, true, text)?,
        _ => return Ok(false),
    }
    Ok(true)
}
