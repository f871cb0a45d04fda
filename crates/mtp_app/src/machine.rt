//! The program over the machine that it runs on.

ghost use Rattle.std.specs.Prelude.{◌≡◌, IsTrue, map, string_bytes};
ghost use Rattle.std.specs.Process.{exit_status};
ghost use Rattle.commands.specs.Says.{Says};
ghost use Rattle.commands.specs.declared.command.CallOptions.{CallOptions};
ghost use Rattle.commands.specs.declared.command.Command.TheVariants as command;
ghost use Rattle.commands.specs.declared.command.PairOptions.{PairOptions};
ghost use Rattle.commands.specs.declared.command.ServeOptions.{ServeOptions};

use crate::app::run;
use disks::FileDisks;
use mt_edge::{
    ChaChaDraw, ChildKids, DiskFiles, ReadSource, Seeded, SystemClock, TcpNet, WriteSink,
};
use statuses::Status;
use std::alloc::AllocError;
use std::env::{self, Env};
use std::fs::{File, Files};
use std::io::{self, Input, Print, Read};
use std::net::Net;
use std::process::{ExitCode, Processes};
use std::time::Clock;

/// The system's random device.
const RANDOM_DEVICE: &str = "/dev/urandom";

/// What the program takes of the machine: its words, input and output, files, net, children and time.
pub trait Machine: AllocGlobal + Env + Input + Print + Files + Net + Processes + Clock {}

impl<R: AllocGlobal + Env + Input + Print + Files + Net + Processes + Clock> Machine for R {}

/// Runs the program on this machine, and answers how its process ends. Where the command draws words and no random bytes are to be
/// had, it ends as a server that can't take connections.
pub fn run_here<R: Machine>(rt: &R) -> ExitCode {
    let status = match words(rt) {
        Ok(words) => seeded(rt, words),
        Err(AllocError) => Status::Memory.number(),
    };
    ended(status)
}

/// The process ends with this status.
fn ended(status: u8) -> ExitCode
    ensures { exit_status result ≡ status }
{
    ExitCode::from(status)
}

/// The words after the program's name. Where a word isn't UTF-8 there are none, which `run` refuses.
fn words<R: Machine>(rt: &R) -> Result<Vec<String>, AllocError> {
    match env::args(rt) {
        Ok(words) => words.skip(1).collect(rt.alloc()),
        Err(error) if error.kind() == io::ErrorKind::OutOfMemory => Err(AllocError),
        Err(_) => Ok(Vec::new(rt.alloc())),
    }
}

/// The program's own name, under which it starts its children; none where it can't be told, and then none can be started.
fn program<R: Machine>(rt: &R) -> String {
    match env::args(rt) {
        Ok(words) => {
            let mut words = words;
            match words.next() {
                Some(name) => name,
                None => String::new(rt.alloc()),
            }
        }
        Err(_) => String::new(rt.alloc()),
    }
}

/// The program over this machine, whose drawn words begin at 32 bytes of the random device where the command draws any.
fn seeded<R: Machine>(rt: &R, words: Vec<String>) -> u8 {
    if !draws(words.as_slice()) {
        return over(rt, words, &[0; 32]);
    }
    match random_bytes(rt) {
        Some(seed) => over(rt, words, &seed),
        None => {
            // (with the status of a server that can't take connections, whatever becomes of the line)
            let _ = println!(rt; "no random bytes");
            Status::NotListening.number()
        }
    }
}

/// Whether the words begin as those of a command that draws words.
fn draws(words: &[String]) -> bool
    ensures serve { (options : ServeOptions) → Says (map string_bytes words.now) (command.Serve options) → IsTrue result }
    ensures call { (options : CallOptions) → Says (map string_bytes words.now) (command.Call options) → IsTrue result }
    ensures pair { (options : PairOptions) → Says (map string_bytes words.now) (command.Pair options) → IsTrue result }
{
    match words.first() {
        Some(first) => matches!(first.as_str(), "serve" | "call" | "pair"),
        None => false,
    }
}

/// 32 bytes of the random device.
fn random_bytes<R: Machine>(rt: &R) -> Option<[u8; 32]> {
    let mut device = File::open(rt, RANDOM_DEVICE).ok()?;
    let mut bytes = [0; 32];
    device.read_exact(&mut bytes).ok()?;
    Some(bytes)
}

/// The program over this machine.
fn over<R: Machine>(rt: &R, words: Vec<String>, seed: &[u8; 32]) -> u8 {
    let mut input = ReadSource::new(rt.reader());
    let mut out = WriteSink::new(io::writer(rt));
    let mut files = DiskFiles::new(rt);
    let mut net = TcpNet::new(rt);
    let mut kids = ChildKids::new(rt, program(rt));
    let mut clock = SystemClock::new(rt);
    let mut draw = ChaChaDraw::at(seed, 0);
    let mut disks = FileDisks::new(rt);
    run(
        rt.alloc(),
        words.as_slice(),
        &mut input,
        &mut out,
        &mut files,
        &mut net,
        &mut kids,
        &mut clock,
        &mut draw,
        &mut disks,
    )
}
