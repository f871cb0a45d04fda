//! The words with which events and bodies begin.

ghost use Rattle.std.specs.Prelude.{◌≡◌};
ghost use Rattle.sched_text.specs.Reading.{asking_verbs, coming_verbs, ending_verbs, find, kinds, verbs};

/// The first word of an event.
#[derive(Clone, Copy)]
pub(crate) enum Verb {
    Call,
    Foreign,
    Plain(Short),
}

/// The first word of an event that keeps no bytes.
#[derive(Clone, Copy)]
pub(crate) enum Short {
    Client,
    Clock,
    Flush,
    Give,
    Work,
    Tick,
    Attach,
    Ping,
    Salts,
    DropAnswer,
    Renew,
    End,
    Lose,
    Restart,
}

/// The first word of a body.
#[derive(Clone, Copy)]
pub(crate) enum Kind {
    Add,
    Get,
    Pad,
    Packed,
    Hex,
}

/// The event that begins so, if one does.
pub(crate) fn verb_of(word: &[u8]) -> Option<Verb>
    ensures { result ≡ find word.now verbs }
{
    if word == b"client".as_slice() {
        Some(Verb::Plain(Short::Client))
    } else if word == b"clock".as_slice() {
        Some(Verb::Plain(Short::Clock))
    } else if word == b"call".as_slice() {
        Some(Verb::Call)
    } else if word == b"flush".as_slice() {
        Some(Verb::Plain(Short::Flush))
    } else {
        coming_verb_of(word)
    }
}

// The event by which something comes to somebody, or one of those below.
fn coming_verb_of(word: &[u8]) -> Option<Verb>
    ensures { result ≡ find word.now coming_verbs }
{
    if word == b"give".as_slice() {
        Some(Verb::Plain(Short::Give))
    } else if word == b"foreign".as_slice() {
        Some(Verb::Foreign)
    } else if word == b"work".as_slice() {
        Some(Verb::Plain(Short::Work))
    } else if word == b"tick".as_slice() {
        Some(Verb::Plain(Short::Tick))
    } else {
        asking_verb_of(word)
    }
}

// The event that asks somebody for something, or one of those below.
fn asking_verb_of(word: &[u8]) -> Option<Verb>
    ensures { result ≡ find word.now asking_verbs }
{
    if word == b"attach".as_slice() {
        Some(Verb::Plain(Short::Attach))
    } else if word == b"ping".as_slice() {
        Some(Verb::Plain(Short::Ping))
    } else if word == b"salts".as_slice() {
        Some(Verb::Plain(Short::Salts))
    } else if word == b"drop".as_slice() {
        Some(Verb::Plain(Short::DropAnswer))
    } else {
        ending_verb_of(word)
    }
}

// The event that ends a session, a client or a server.
fn ending_verb_of(word: &[u8]) -> Option<Verb>
    ensures { result ≡ find word.now ending_verbs }
{
    if word == b"renew".as_slice() {
        Some(Verb::Plain(Short::Renew))
    } else if word == b"end".as_slice() {
        Some(Verb::Plain(Short::End))
    } else if word == b"lose".as_slice() {
        Some(Verb::Plain(Short::Lose))
    } else if word == b"restart".as_slice() {
        Some(Verb::Plain(Short::Restart))
    } else {
        None
    }
}

/// The body that begins so, if one does.
pub(crate) fn kind_of(word: &[u8]) -> Option<Kind>
    ensures { result ≡ find word.now kinds }
{
    if word == b"add".as_slice() {
        Some(Kind::Add)
    } else if word == b"get".as_slice() {
        Some(Kind::Get)
    } else if word == b"pad".as_slice() {
        Some(Kind::Pad)
    } else if word == b"packed".as_slice() {
        Some(Kind::Packed)
    } else if word == b"hex".as_slice() {
        Some(Kind::Hex)
    } else {
        None
    }
}
