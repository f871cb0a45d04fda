//! The pages of help, and the version.

ghost use Rattle.std.specs.Prelude.{◌≡◌};
ghost use Rattle.commands.specs.Pages.{page_text, version_text};

/// A page of help.
#[derive(Clone, Copy, Debug, PartialEq, Eq)]
pub enum Page {
    /// The program's: its commands.
    Program,
    /// That of `sim`.
    Sim,
    /// That of `load`.
    Load,
    /// That of `serve`.
    Serve,
    /// That of `call`.
    Call,
    /// That of `pair`.
    Pair,
    /// That of `check`.
    Check,
    /// That of `relay`.
    Relay,
}

const VERSION: &str = "mtp 0.1.0\n";

const PROGRAM: &str = "\
mtp: MTProto 2.0 sessions for cloud chats, both ends

mtp sim [--wire]       plays a schedule and reports what became of each call
mtp load N             plays the schedule of N calls and writes a summary
mtp serve OPTIONS      serves connections
mtp call OPTIONS       runs a script of calls as one batch
mtp pair OPTIONS       runs one over a server that stops and a new one
mtp check              tells whether calls of a trace execute at most once
mtp relay OPTIONS      passes a capture on as a proxy with a secret does
mtp COMMAND --help     tells what the options of a command mean
mtp --help             writes this page
mtp --version          writes the version
";

const SIM: &str = "\
mtp sim [--wire]

Reads a schedule from standard input, plays it in one world of servers and
clients, and writes the report of that world.

--wire    adds a line on all packets: how many, their bytes, and the SHA-256
          of all of them
";

const LOAD: &str = "\
mtp load N

Plays the schedule of N calls in one world and writes one line that sums it up.

N    how many calls: 1 to 10000
";

const SERVE: &str = "\
mtp serve --keys F --port P --conns N [--stop-after K] [--journal F]

Writes `listening P`, serves N connections one after the other, and writes
`served N`; or `stopped`, where it was told to stop and did.

--keys F          the file of the keys
--port P          the port to listen on: 1 to 65535
--conns N         how many connections to serve: 1 to 1000
--stop-after K    stops after K packets: 1 to 1000000000
--journal F       keeps the sessions in the file F, and goes on with those
                  that it has: after a crash, too
";

const CALL: &str = "\
mtp call --keys F --key ID --port P --form FORM
         [--obfuscate] [--retries R] [--perm ID]

Reads a script of calls from standard input, runs it as one batch against a
server on this machine, and writes a line for each call.

--keys F       the file of the keys
--key ID       the key to use: the 16 lower case hexadecimal digits of its
               identifier's bytes
--port P       the port to connect to: 1 to 65535
--form FORM    how packets are framed: abridged, intermediate, padded or full
--obfuscate    obfuscates the connection; not with full
--retries R    how many lost connections to make up for: 0 to 1000, else 0
--perm ID      the permanent key behind a temporary --key
";

const PAIR: &str = "\
mtp pair --keys F --key ID --port P --stop-after K

Reads a script of calls from standard input and runs it as one batch against a
server that it starts on port P and that stops after K packets; where that
leaves a call undecided it starts another one on port P + 1 and goes on there.
Writes a line for each call.

--keys F          the file of the keys
--key ID          the key to use, a permanent one: the 16 lower case
                  hexadecimal digits of its identifier's bytes
--port P          the port of the first server: 1 to 65534
--stop-after K    stops the first server after K packets: 1 to 1000000000
";

const CHECK: &str = "\
mtp check

Reads a trace from standard input, a fact a line, and writes `yes` where each
call executed at most once and what is told of it is so. Else it writes
`broken K at line N`: the first of the six sentences below that doesn't hold,
and the first line that shows it.

body C N HEX       the body of call N of client C; calls count from 1
name C N S M       the call's next name: session S and message number M
state C N STATE    what the client tells of the call: queued, sent, held,
                   done HEX, refused CODE or unknown CAUSE, where CAUSE is
                   session, renewed, ended or forgotten
entry START S M HEX HEX ran
                   a request and its reply, in this start of the server; answer
                   in place of ran where the service didn't run
made S             the server made a session of this number
left S             the client renewed in it
closed S           the client ended in it
gone S M           the server had forgotten the number, or dropped its reply

1  over all names of a call there is at most one entry
2  each entry has the name of a call, and the call's body as its request
3  a call that is done has exactly one entry, with the reply that it was told
4  a replaced name has no entry, nor has a call that is queued, held or refused
5  where a call is unknown, the cause that is told holds of its last name
6  what ran in one start has the replies of the register service, in order
";

const RELAY: &str = "\
mtp relay --secret HEX --form FORM

Reads a capture from standard input and passes it on as a proxy with a secret
does, a line for each line: the client's side is obfuscated, the server's is in
plain framing.

--secret HEX    the secret of the proxy: 32 hexadecimal digits
--form FORM     how the server's side is framed: abridged, intermediate or
                padded

up HEX      bytes that the client sent, `-` for none
down HEX    bytes that the server sent, `-` for none
";

impl Page {
    /// The text of the page.
    #[tactic(auto, unfolding(crate::specs::Pages::page_text))]
    pub fn text(self) -> &'static str
        ensures { result.now ≡ page_text self }
    {
        match self {
            Page::Program => PROGRAM,
            Page::Sim => SIM,
            Page::Load => LOAD,
            Page::Serve => SERVE,
            Page::Call => CALL,
            Page::Pair => PAIR,
            Page::Check => check_page(),
            Page::Relay => RELAY,
        }
    }
}

/// The page of `check`.
#[tactic(auto, unfolding(crate::specs::Pages::page_text))]
fn check_page() -> &'static str
    ensures { result.now ≡ page_text Page.Check }
{
    CHECK
}

/// The text for `--version`.
#[tactic(auto, unfolding(crate::specs::Pages::version_text))]
pub fn version() -> &'static str
    ensures { result.now ≡ version_text }
{
    VERSION
}
