//! The pieces of a capture through one relay.

ghost use Rattle.std.specs.Prelude.{◌≡◌, ◌≢◌, ◌≤◌, ◌++◌, [], Some, Err, length, IfErr, IfOk, IfSome, OnOk};
ghost use Rattle.mt_edge.specs.Faults.{Rose};
ghost use Rattle.statuses.specs.Lines.{input_bytes_max, refusal_line};
ghost use Rattle.statuses.specs.declared.status.Status.TheVariants as status;
ghost use Rattle.transport.specs.declared.form.Form.TheVariants.{Full};
ghost use Rattle.cmd_relay.specs.Captures.{line_of, way_word};
ghost use Rattle.secret_relay.specs.Stories.{Story};
ghost use Rattle.secret_relay.specs.Standing.{Adds, Stands};
ghost use Rattle.cmd_relay.specs.Inner.{Passes, TakesOne};
ghost use Rattle.cmd_relay.specs.Relays.{IsOfRelay, IsRefusedFor, Owes, cause_of};

use crate::capture::{CaptureFault, Piece, Way, read_capture};
use mt_edge::{ReadFault, Source, read_all};
use octets::{Memory, Octets};
use secret_relay::laws::written_by_the_relay;
use secret_relay::{Form, Relay, RelayFault};
use statuses::{Answer, INPUT_BYTES_MAX, Status, Stop, bad_line, refusal, too_long};
use std::alloc::Global;

/// Reads a capture to its end and answers a line for each of its lines, or its refusal.
pub(crate) fn relay<S: Source>(
    alloc: Global,
    form: Form,
    secret: &[u8; 16],
    input: &mut S,
) -> Result<Answer, Stop>
    requires { form ≢ Full }
    ensures status { IfOk result (λ answer. IsOfRelay answer.status) }
    ensures answered { IfOk result (λ answer. IfSome (S.left input.old) (λ left. Owes form secret.now left answer.status answer.text)) }
    ensures to_the_end { IfOk result (λ answer. answer.status ≡ status.Done → IfSome (S.left input.old) (λ _. S.left input.new ≡ Some [])) }
    ensures no_fault { IfOk result (λ answer. answer.status ≡ status.Done → S.faults input.new ≡ S.faults input.old) }
    ensures read_fault { result ≡ Err Stop.ReadFault → Rose (S.faults input.old) (S.faults input.new) }
{
    match read_all(alloc, input, INPUT_BYTES_MAX) {
        Ok(text) => Ok(answer_to(alloc, form, secret, text.as_slice())?),
        Err(ReadFault::TooLong) => Ok(too_long(alloc)?),
        Err(ReadFault::Failed) => Err(Stop::ReadFault),
        Err(ReadFault::Memory) => Err(Stop::Memory),
    }
}

/// The answer to the bytes of a capture.
fn answer_to(alloc: Global, form: Form, secret: &[u8; 16], text: &[u8]) -> Result<Answer, Memory>
    requires not_full { form ≢ Full }
    requires short { length text.now ≤ input_bytes_max }
    ensures status { IfOk result (λ answer. IsOfRelay answer.status) }
    ensures owed { IfOk result (λ answer. Owes form secret.now text.now answer.status answer.text) }
{
    match read_capture(alloc, text) {
        Ok(pieces) => pass(alloc, form, secret, &pieces),
        Err(CaptureFault::BadLine { line }) => bad_line(alloc, line),
        Err(CaptureFault::Memory) => Err(Memory),
    }
}

/// Passes the pieces through one relay: a line for each, or the refusal of the first that is refused.
fn pass(alloc: Global, form: Form, secret: &[u8; 16], pieces: &[Piece]) -> Result<Answer, Memory>
    requires { form ≢ Full }
    ensures { IfOk result (λ answer. Passes form secret.now pieces.now answer.status answer.text) }
{
    let mut relay = Relay::new(form, secret);
    let mut text = Octets::new(alloc);
    for piece in pieces {
        let mut out = Octets::new(alloc);
        if let Err(fault) = take(alloc, &mut relay, piece, &mut out) {
            return refused(alloc, piece.line, fault);
        }
        put_line(alloc, piece.way, out.as_slice(), &mut text)?;
    }
    Ok(Answer {
        status: Status::Done,
        text,
    })
}

/// Takes a piece, and puts what goes out for it at the end.
fn take(alloc: Global, relay: &mut Relay, piece: &Piece, out: &mut Octets) -> Result<(), RelayFault>
    ensures goes_on { OnOk result ((story : Story) → Stands relay.old story → Adds out.old out.new (λ more.
        TakesOne relay.old relay.new piece.now.way piece.now.bytes more story)) }
    ensures refused { IfErr result (λ fault. fault ≢ RelayFault.Memory → (story : Story) → Stands relay.old story
        → IsRefusedFor relay.old.form relay.old.secret piece.now.way piece.now.bytes fault story) }
    ensures same_sides { (relay.new.form ≡ relay.old.form) × (relay.new.secret ≡ relay.old.secret) }
{
    written_by_the_relay();
    let bytes = piece.bytes.as_slice();
    match piece.way {
        Way::Up => relay.up(alloc, bytes, out),
        Way::Down => relay.down(alloc, bytes, out),
    }
}

/// Puts the line for what went out at the end.
fn put_line(alloc: Global, way: Way, bytes: &[u8], text: &mut Octets) -> Result<(), Memory>
    ensures { OnOk result (text.new ≡ text.old ++ line_of way bytes.now) }
{
    text.push_all(alloc, word_of(way))?;
    text.push_all(alloc, b" ")?;
    if bytes.is_empty() {
        text.push_all(alloc, b"-")?;
    } else {
        text.push_all(alloc, hex::encode(alloc, bytes)?.as_bytes())?;
    }
    text.push_all(alloc, b"\n")
}

/// The word for a way.
fn word_of(way: Way) -> &'static [u8]
    ensures { result.now ≡ way_word way }
{
    match way {
        Way::Up => b"up",
        Way::Down => b"down",
    }
}

/// A line's piece is refused.
fn refused(alloc: Global, line: u32, fault: RelayFault) -> Result<Answer, Memory>
    ensures status { IfOk result (λ answer. answer.status ≡ status.InputRefused) }
    ensures text { IfOk result (λ answer. answer.text ≡ refusal_line line (cause_of fault)) }
    ensures no_memory { IfOk result (λ _. fault ≢ RelayFault.Memory) }
{
    let cause = match fault {
        RelayFault::Early => "early",
        RelayFault::Start { .. } => "start",
        RelayFault::Frame(_) => "frame fault",
        RelayFault::Length { .. } => "length",
        RelayFault::Memory => return Err(Memory),
    };
    refusal(alloc, Status::InputRefused, line, cause)
}
