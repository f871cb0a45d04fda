//! Programs of this machine. They tell nothing.

ghost use Rattle.std.specs.Prelude.{◌≡◌, ◌≢◌, None, Some, Ok, pos, map, string_bytes, IfOk, IfErr, IfSome, IsErr, IsSomeAnd};
ghost use Rattle.std.specs.Process.{child_status, command_args, command_program, exit_code};
ghost use Rattle.mt_edge.specs.Lines.{ReadsLine};

use crate::act::Act;
use crate::lines::{NextLine, line_of, read_line};
use crate::mem_kids::after_line;
use crate::spawner::{Line, Spawner};
use crate::tcp::after_act;
use std::alloc::{AllocError, Global};
use std::io::{self, ErrorKind};
use std::process::{Child, Command, ExitStatus, Processes, Stdio};

/// The most bytes that a line of a child may have.
const LINE_BYTES_MAX: usize = 65_536;

/// One program of this machine, which is started with words of the caller's choice. Its standard input is empty, and its
/// standard error is that of this process. A start that finds no memory has failed, since the library takes memory for
/// it; a line of 65,536 bytes or more can't be read.
#[derive(Drop)]
pub struct ChildKids<R: Processes + Drop> {
    processes: R,
    program: String,
    child: Option<Child<R::Started>>,
    faults: u64,
}

impl<R: Processes + Drop> ChildKids<R> {
    /// Starts of the program of this name, none of them made yet.
    pub fn new(processes: R, program: String) -> ChildKids<R>
        ensures { ⟦<ChildKids<R> as Spawner>⟧.faults result ≡ 0 }
    {
        ChildKids {
            processes,
            program,
            child: None,
            faults: 0,
        }
    }

    /// The program with these words.
    fn command(&self, words: &[String]) -> Result<Command, AllocError>
        ensures program { IfOk result (λ command. command_program command ≡ string_bytes self.now.program) }
        ensures words { IfOk result (λ command. command_args command ≡ map string_bytes words.now) }
    {
        let alloc = *self.program.allocator();
        let mut command = Command::new(alloc, self.program.as_str())?;
        for word in words {
            command.arg(word.as_str())?;
        }
        Ok(command)
    }

    /// The program with these words, with an input that is empty and an output that is read.
    fn prepared(&self, words: &[String]) -> Result<Command, AllocError>
        ensures program { IfOk result (λ command. command_program command ≡ string_bytes self.now.program) }
        ensures words { IfOk result (λ command. command_args command ≡ map string_bytes words.now) }
    {
        let mut command = self.command(words)?;
        command.stdin(Stdio::null());
        command.stdout(Stdio::piped());
        Ok(command)
    }

    /// What std answers to a start with these words.
    fn spawn(&self, words: &[String]) -> io::Result<Child<R::Started>> {
        let mut command = self.prepared(words)?;
        command.spawn(&self.processes)
    }

    /// The answer of a start, by what std answered. A child that was started is now the one that was started last.
    fn begin(&mut self, started: io::Result<Child<R::Started>>) -> Act
        ensures ready { IfOk started (λ child. (result ≡ Act.Ready) × (self.new.child ≡ Some child)) }
        ensures failed { IfErr started (λ _. (result ≡ Act.Failed) × (self.new.child ≡ self.old.child)) }
        ensures faults { self.new.faults ≡ self.old.faults }
    {
        match started {
            Ok(child) => {
                self.child = Some(child);
                Act::Ready
            }
            Err(_) => Act::Failed,
        }
    }

    /// The next line of the child.
    fn next_line(&mut self, alloc: Global) -> NextLine
        ensures none { self.old.child ≡ None → result ≡ NextLine.Failed }
        ensures line { IfSome self.old.child (λ before. IfSome before.stdout (λ output. IsSomeAnd self.new.child (λ after. IsSomeAnd after.stdout (λ rest.
            ReadsLine 65536 result (R.Started.Stdout.remaining output) (R.Started.Stdout.remaining rest))))) }
        ensures faults { self.new.faults ≡ self.old.faults }
    {
        match &mut self.child {
            Some(child) => match &mut child.stdout {
                Some(output) => read_line(alloc, output, LINE_BYTES_MAX),
                None => NextLine::Failed,
            },
            None => NextLine::Failed,
        }
    }

    /// What std answers to a wait for the child.
    fn status(&mut self) -> io::Result<ExitStatus>
        ensures none { self.old.child ≡ None → IsErr result }
        ensures ended { IfOk result (λ status. IsSomeAnd self.new.child (λ child. child_status child ≡ Some status)) }
        ensures again { IfSome self.old.child (λ child. IfSome (child_status child) (λ status. result ≡ Ok status)) }
        ensures faults { self.new.faults ≡ self.old.faults }
    {
        match &mut self.child {
            Some(child) => child.wait(),
            None => Err(io::Error::from(ErrorKind::NotFound)),
        }
    }
}

/// The answer of a wait, by what std answered.
fn act_of_status(answer: io::Result<ExitStatus>) -> Act
    ensures ready { IfOk answer (λ status. exit_code status ≡ Some (pos 0) → result ≡ Act.Ready) }
    ensures other { IfOk answer (λ status. exit_code status ≢ Some (pos 0) → result ≡ Act.Failed) }
    ensures failed { IfErr answer (λ _. result ≡ Act.Failed) }
{
    match answer {
        Ok(status) => {
            if status.success() {
                Act::Ready
            } else {
                Act::Failed
            }
        }
        Err(_) => Act::Failed,
    }
}

impl<R: Processes + Drop> Spawner for ChildKids<R> {
    ghost calls = { λ _. None };

    ghost faults = { λ kids. kids.faults };

    fn start(&mut self, words: &[String]) -> Act {
        let started = self.spawn(words);
        let answer = self.begin(started);
        self.faults = after_act(answer, self.faults);
        answer
    }

    fn line(&mut self, alloc: Global) -> Line {
        let answer = line_of(self.next_line(alloc));
        self.faults = after_line(&answer, self.faults);
        answer
    }

    fn wait(&mut self) -> Act {
        let answer = act_of_status(self.status());
        self.faults = after_act(answer, self.faults);
        answer
    }
}
