//! The checks of script, key file, keys and calls, in this order.

ghost use Rattle.std.specs.Prelude.{◌≡◌, ◌≢◌, ◌≤◌, ◌⊎◌, true, Some, None, length, IfErr, IfOk};
ghost use Rattle.client_core.specs.Keys.{HasKeys};
ghost use Rattle.key_files.specs.Files.{not_read, refused_at};
ghost use Rattle.statuses.specs.Lines.{input_bytes_max};
ghost use Rattle.transport.specs.declared.form.Form.TheVariants as forms;
ghost use Rattle.sim_text.specs.Faults.{fault_of};
ghost use Rattle.call_script.specs.Scripts.{IsFaultOf, Spells};
ghost use Rattle.cmd_call.specs.Inner.{IsRefusalOf, LeavesKeys, LeavesRing, LeavesScript, LeavesText, keys_of};
ghost use Rattle.cmd_call.specs.Owed.{AskedFor, OwesToKeys, OwesToRing, OwesToScript, OwesToText, around_of, files_of, no_key_text};
ghost use Rattle.cmd_call.specs.Runs.{UsesNet};

use crate::asking::{Untaken, opening, submit_whole};
use crate::batching::run;
use crate::keys::{Acting, keys_in_ring};
use auth_keys::Ring;
use call_script::{Script, ScriptFault, read_script};
use commands::CallOptions;
use draws::Draw;
use key_files::{KeysFault, read_ring, refused_line, unread_line};
use mt_edge::{Clock, KeyFiles, Net};
use octets::{Memory, Octets};
use sim_text::submit_cause;
use statuses::{Answer, Status, bad_line, refusal};
use std::alloc::Global;

/// The answer to the text of the input. The text is given up once it is read, and the script once its calls are the
/// client's.
///
/// # Errors
///
/// `Memory`.
pub(crate) fn answer_to_text<F: KeyFiles, N: Net, C: Clock, D: Draw>(
    alloc: Global,
    options: &CallOptions<'_>,
    text: Octets,
    files: &mut F,
    net: &mut N,
    clock: &mut C,
    draw: &mut D,
) -> Result<Answer, Memory>
    requires short { length text ≤ input_bytes_max }
    requires full_is_plain { options.now.obfuscate ≡ true → options.now.form ≢ forms.Full }
    ensures owed { IfOk result (λ answer. OwesToText options.now text
        (files_of F.told F.faults files.old files.new)
        (around_of N.calls N.room N.faults C.given D.step net.old net.new clock.old clock.new draw.old draw.new)
        answer.status answer.text) }
    ensures left { IfErr result (λ _. LeavesText options.now text
        (files_of F.told F.faults files.old files.new)
        (around_of N.calls N.room N.faults C.given D.step net.old net.new clock.old clock.new draw.old draw.new)) }
    ensures asked { AskedFor options.now.keys (files_of F.told F.faults files.old files.new) ⊎ (files.new ≡ files.old) }
    ensures connects { UsesNet options.now
        (around_of N.calls N.room N.faults C.given D.step net.old net.new clock.old clock.new draw.old draw.new) }
{
    match script_of(alloc, text) {
        Ok(script) => answer_to_script(alloc, options, script, files, net, clock, draw),
        Err(ScriptFault::BadLine { line }) => bad_line(alloc, line),
        Err(ScriptFault::Memory) => Err(Memory),
    }
}

/// Reads a script, and gives up its text.
///
/// # Errors
///
/// `BadLine` with the first line that is outside the grammar. `Memory`.
fn script_of(alloc: Global, text: Octets) -> Result<Script, ScriptFault>
    requires { length text ≤ input_bytes_max }
    ensures calls { IfOk result (λ script. Spells text script) }
    ensures bad_line { IfErr result (IsFaultOf text) }
{
    read_script(alloc, text.as_slice())
}

/// The answer to a script, by the key file.
fn answer_to_script<F: KeyFiles, N: Net, C: Clock, D: Draw>(
    alloc: Global,
    options: &CallOptions<'_>,
    script: Script,
    files: &mut F,
    net: &mut N,
    clock: &mut C,
    draw: &mut D,
) -> Result<Answer, Memory>
    requires full_is_plain { options.now.obfuscate ≡ true → options.now.form ≢ forms.Full }
    ensures owed { IfOk result (λ answer. OwesToScript options.now script
        (files_of F.told F.faults files.old files.new)
        (around_of N.calls N.room N.faults C.given D.step net.old net.new clock.old clock.new draw.old draw.new)
        answer.status answer.text) }
    ensures left { IfErr result (λ _. LeavesScript options.now script
        (files_of F.told F.faults files.old files.new)
        (around_of N.calls N.room N.faults C.given D.step net.old net.new clock.old clock.new draw.old draw.new)) }
    ensures asked { AskedFor options.now.keys (files_of F.told F.faults files.old files.new) }
    ensures connects { UsesNet options.now
        (around_of N.calls N.room N.faults C.given D.step net.old net.new clock.old clock.new draw.old draw.new) }
{
    match read_ring(alloc, options.keys.as_str(), files) {
        Ok(ring) => answer_to_ring(alloc, options, script, ring, net, clock, draw),
        Err(KeysFault::Unread) => key_file_unread(alloc),
        Err(KeysFault::Refused { line }) => key_file_refused(alloc, line),
        Err(KeysFault::Memory) => Err(Memory),
    }
}

/// The answer where the key file can't be read.
///
/// # Errors
///
/// `Memory`.
pub fn key_file_unread(alloc: Global) -> Result<Answer, Memory>
    ensures status { IfOk result (λ answer. answer.status ≡ Status.KeysRefused) }
    ensures text { IfOk result (λ answer. answer.text ≡ not_read) }
{
    Answer::new(alloc, Status::KeysRefused, unread_line())
}

/// The answer where a ring hasn't the key that is asked for, or not the permanent one that it needs.
///
/// # Errors
///
/// `Memory`.
pub fn no_such_key(alloc: Global) -> Result<Answer, Memory>
    ensures status { IfOk result (λ answer. answer.status ≡ Status.KeysRefused) }
    ensures text { IfOk result (λ answer. answer.text ≡ no_key_text) }
{
    Answer::new(alloc, Status::KeysRefused, b"no such key\n")
}

/// The answer where this line of the key file, from 1, is refused.
///
/// # Errors
///
/// `Memory`.
pub fn key_file_refused(alloc: Global, line: u32) -> Result<Answer, Memory>
    ensures status { IfOk result (λ answer. answer.status ≡ Status.KeysRefused) }
    ensures text { IfOk result (λ answer. answer.text ≡ refused_at line) }
{
    Ok(Answer {
        status: Status::KeysRefused,
        text: refused_line(alloc, line)?,
    })
}

/// The answer to a script, by the keys of a ring.
fn answer_to_ring<N: Net, C: Clock, D: Draw>(
    alloc: Global,
    options: &CallOptions<'_>,
    script: Script,
    ring: Ring,
    net: &mut N,
    clock: &mut C,
    draw: &mut D,
) -> Result<Answer, Memory>
    requires full_is_plain { options.now.obfuscate ≡ true → options.now.form ≢ forms.Full }
    ensures owed { IfOk result (λ answer. OwesToRing options.now script ring
        (around_of N.calls N.room N.faults C.given D.step net.old net.new clock.old clock.new draw.old draw.new)
        answer.status answer.text) }
    ensures left { IfErr result (λ _. LeavesRing options.now script ring
        (around_of N.calls N.room N.faults C.given D.step net.old net.new clock.old clock.new draw.old draw.new)) }
    ensures connects { UsesNet options.now
        (around_of N.calls N.room N.faults C.given D.step net.old net.new clock.old clock.new draw.old draw.new) }
{
    match keys_in_ring(&ring, options.key, options.perm) {
        Some(keys) => answer_under(alloc, options, script, ring, keys, net, clock, draw),
        None => no_such_key(alloc),
    }
}

/// The answer to a script whose client acts under these keys of the ring.
fn answer_under<N: Net, C: Clock, D: Draw>(
    alloc: Global,
    options: &CallOptions<'_>,
    script: Script,
    ring: Ring,
    keys: Acting,
    net: &mut N,
    clock: &mut C,
    draw: &mut D,
) -> Result<Answer, Memory>
    requires full_is_plain { options.now.obfuscate ≡ true → options.now.form ≢ forms.Full }
    requires keys { HasKeys ring (keys_of keys) }
    ensures owed { IfOk result (λ answer. OwesToKeys options.now script ring (keys_of keys)
        (around_of N.calls N.room N.faults C.given D.step net.old net.new clock.old clock.new draw.old draw.new)
        answer.status answer.text) }
    ensures left { IfErr result (λ _. LeavesKeys options.now script ring (keys_of keys)
        (around_of N.calls N.room N.faults C.given D.step net.old net.new clock.old clock.new draw.old draw.new)) }
    ensures connects { UsesNet options.now
        (around_of N.calls N.room N.faults C.given D.step net.old net.new clock.old clock.new draw.old draw.new) }
{
    let mut client = opening(alloc, keys, draw)?;
    match submit_whole(&mut client, alloc, script) {
        Ok(()) => run(alloc, options, client, ring, net, clock, draw),
        Err(untaken) => {
            drop(client);
            refused_call(alloc, &untaken)
        }
    }
}

/// The answer where a call isn't taken: the number of its line, and why.
///
/// # Errors
///
/// `Memory`, also where the call isn't taken for want of it.
pub fn refused_call(alloc: Global, untaken: &Untaken) -> Result<Answer, Memory>
    ensures { IfOk result (λ answer. IsRefusalOf untaken.now.line (fault_of untaken.now.fault) answer.status answer.text) }
{
    match submit_cause(&untaken.fault) {
        Some(cause) => refusal(alloc, Status::InputRefused, untaken.line, cause),
        None => Err(Memory),
    }
}
