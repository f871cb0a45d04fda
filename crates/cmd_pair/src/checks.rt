//! The checks of script, key file, key and calls, in this order.

ghost use Rattle.std.specs.Prelude.{◌≡◌, ◌≤◌, ◌⊎◌, IfErr, IfOk, length};
ghost use Rattle.call_script.specs.Scripts.{Spells};
ghost use Rattle.cmd_call.specs.Owed.{AskedFor, files_of};
ghost use Rattle.statuses.specs.Lines.{input_bytes_max};
ghost use Rattle.cmd_pair.specs.Checks.{HasRing, HasScript};
ghost use Rattle.cmd_pair.specs.Inner.{HaltsAtCalls, HaltsAtFile, HaltsAtScript, HaltsAtText, HaltsBefore, IsGiven, IsTaken};

use crate::halt::Halt;
use auth_keys::Ring;
use call_script::{Script, ScriptFault, read_script};
use client_core::OpeningClient;
use cmd_call::laws::found_keys_are_there;
use cmd_call::{
    key_file_refused, key_file_unread, keys_in_ring, no_such_key, opening, refused_call, submit_all,
};
use commands::PairOptions;
use draws::Draw;
use key_files::{KeysFault, read_ring};
use mt_edge::{KeyFiles, ReadFault, Source, read_all};
use statuses::{INPUT_BYTES_MAX, bad_line, too_long};
use std::alloc::Global;

/// A client that was given the calls of the input, and the ring of its key.
///
/// # Errors
///
/// Why there is none.
pub(crate) fn take<S: Source, F: KeyFiles, D: Draw>(
    alloc: Global,
    options: &PairOptions<'_>,
    input: &mut S,
    files: &mut F,
    draw: &mut D,
) -> Result<(OpeningClient, Ring), Halt>
    ensures taken { IfOk result (λ taken. IsTaken options.now
        (record { told = S.left; faults = S.faults; before = input.old; after = input.new })
        (files_of F.told F.faults files.old files.new) D.step draw.old draw.new taken.1 taken.0) }
    ensures halts { IfErr result (HaltsBefore options.now
        (record { told = S.left; faults = S.faults; before = input.old; after = input.new })
        (files_of F.told F.faults files.old files.new) D.step draw.old draw.new) }
    ensures asked { AskedFor options.now.keys (files_of F.told F.faults files.old files.new) ⊎ (files.new ≡ files.old) }
{
    let script = script_of(alloc, input)?;
    let ring = ring_of(alloc, options, files)?;
    let client = client_of(alloc, options, &script, &ring, draw)?;
    Ok((client, ring))
}

/// The script that the input is.
///
/// # Errors
///
/// `Refused`: it has too many bytes, or a line outside the grammar. `ReadFault`, `Memory`.
fn script_of<S: Source>(alloc: Global, input: &mut S) -> Result<Script, Halt>
    ensures script { IfOk result (HasScript (record { told = S.left; faults = S.faults; before = input.old; after = input.new })) }
    ensures halts { IfErr result (HaltsAtScript (record { told = S.left; faults = S.faults; before = input.old; after = input.new })) }
{
    match read_all(alloc, input, INPUT_BYTES_MAX) {
        Ok(text) => spelt(alloc, text.as_slice()),
        Err(ReadFault::TooLong) => Err(Halt::Refused(too_long(alloc)?)),
        Err(ReadFault::Failed) => Err(Halt::ReadFault),
        Err(ReadFault::Memory) => Err(Halt::Memory),
    }
}

/// The script that a text spells.
///
/// # Errors
///
/// `Refused`: a line is outside the grammar. `Memory`.
fn spelt(alloc: Global, text: &[u8]) -> Result<Script, Halt>
    requires { length text.now ≤ input_bytes_max }
    ensures script { IfOk result (Spells text.now) }
    ensures halts { IfErr result (HaltsAtText text.now) }
{
    match read_script(alloc, text) {
        Ok(script) => Ok(script),
        Err(ScriptFault::BadLine { line }) => Err(Halt::Refused(bad_line(alloc, line)?)),
        Err(ScriptFault::Memory) => Err(Halt::Memory),
    }
}

/// The ring that the key file is.
///
/// # Errors
///
/// `Refused`: it can't be read, or a line of it is refused. `Memory`.
fn ring_of<F: KeyFiles>(
    alloc: Global,
    options: &PairOptions<'_>,
    files: &mut F,
) -> Result<Ring, Halt>
    ensures ring { IfOk result (HasRing options.now (files_of F.told F.faults files.old files.new)) }
    ensures halts { IfErr result (HaltsAtFile options.now (files_of F.told F.faults files.old files.new)) }
    ensures asked { AskedFor options.now.keys (files_of F.told F.faults files.old files.new) }
{
    match read_ring(alloc, options.keys.as_str(), files) {
        Ok(ring) => Ok(ring),
        Err(KeysFault::Unread) => Err(Halt::Refused(key_file_unread(alloc)?)),
        Err(KeysFault::Refused { line }) => Err(Halt::Refused(key_file_refused(alloc, line)?)),
        Err(KeysFault::Memory) => Err(Halt::Memory),
    }
}

/// A client under the key, which was given the calls of a script. The number of its session is drawn.
///
/// # Errors
///
/// `Refused`: the ring hasn't the key, or has it as a temporary one, and then nothing was drawn; or a call isn't taken.
/// `Memory`.
fn client_of<D: Draw>(
    alloc: Global,
    options: &PairOptions<'_>,
    script: &Script,
    ring: &Ring,
    draw: &mut D,
) -> Result<OpeningClient, Halt>
    ensures given { IfOk result (IsGiven options.now script.now ring.now D.step draw.old draw.new) }
    ensures halts { IfErr result (HaltsAtCalls options.now script.now ring.now D.step draw.old draw.new) }
{
    found_keys_are_there();
    let Some(keys) = keys_in_ring(ring, options.key, None) else {
        return Err(Halt::Refused(no_such_key(alloc)?));
    };
    let mut client = opening(alloc, keys, draw)?;
    match submit_all(&mut client, alloc, script) {
        Ok(()) => Ok(client),
        Err(untaken) => {
            drop(client);
            Err(Halt::Refused(refused_call(alloc, &untaken)?))
        }
    }
}
