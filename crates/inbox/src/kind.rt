//! What a message is for judging.

ghost use Rattle.std.specs.Prelude.{◌≡◌, ◌==◌};
ghost use Rattle.std.specs.List.{list_any};
ghost use Rattle.inbox.specs.Kinds.{begins_call, calling_numbers, container_in, kind_among, kind_beginning};

use containers::{ContainerFault, Parts, is_container};
use id_window::Mark;
use service_tl::{
    AUTH_BIND_TEMP_AUTH_KEY, GZIP_PACKED, INVOKE_AFTER_MSG, INVOKE_AFTER_MSGS, MSGS_ACK,
    constructor_of, is_service,
};

/// What a message is for judging.
#[derive(Clone, Copy)]
pub(crate) enum Kind {
    /// A lawful container.
    Container,
    /// A container that isn't lawful.
    Unlawful,
    /// An acknowledgement.
    Acknowledgement,
    /// A call.
    Call,
    /// Any other service message.
    Other,
}

impl Kind {
    ghost use Rattle.std.specs.Prelude.{◌≡◌};
    ghost use Rattle.inbox.specs.Refusals.{needs_even, needs_odd};
    ghost use Rattle.inbox.specs.Judging.{is_container, outcome_of, first_mark};

    /// Whether the message begins as a container.
    pub(crate) fn is_container(self) -> bool
        ensures { result ≡ is_container self }
    {
        matches!(self, Kind::Container | Kind::Unlawful)
    }

    /// Whether its sequence number has to be even.
    pub(crate) fn needs_even(self) -> bool
        ensures { result ≡ needs_even self }
    {
        matches!(
            self,
            Kind::Container | Kind::Unlawful | Kind::Acknowledgement
        )
    }

    /// Whether its sequence number has to be odd.
    pub(crate) fn needs_odd(self) -> bool
        ensures { result ≡ needs_odd self }
    {
        matches!(self, Kind::Call)
    }

    /// The mark of the message where it is accepted.
    pub(crate) fn first_mark(self) -> Mark
        ensures { result ≡ first_mark (outcome_of self) }
    {
        match self {
            Kind::Container | Kind::Unlawful => Mark::Container,
            Kind::Call => Mark::Waiting,
            Kind::Acknowledgement | Kind::Other => Mark::Service,
        }
    }
}

/// The inner messages of the message with this number, or its fault, where its body begins as a container.
pub(crate) fn container_in(number: u64, body: &[u8]) -> Option<Result<Parts<'_>, ContainerFault>>
    ensures { result ≡ container_in number body.now }
{
    if is_container(body) {
        Some(Parts::read(number, body))
    } else {
        None
    }
}

/// The kind of a message with this body.
pub(crate) fn kind_among(container: &Option<Result<Parts<'_>, ContainerFault>>, body: &[u8]) -> Kind
    ensures { result ≡ kind_among container.now body.now }
{
    match container {
        Some(Ok(_)) => Kind::Container,
        Some(Err(_)) => Kind::Unlawful,
        None => kind_beginning(constructor_of(body)),
    }
}

fn kind_beginning(constructor: Option<u32>) -> Kind
    ensures { result ≡ kind_beginning constructor }
{
    if constructor == Some(MSGS_ACK) {
        return Kind::Acknowledgement;
    }
    if begins_call(constructor) {
        return Kind::Call;
    }
    Kind::Other
}

/// Whether a body that this constructor begins is a call: no service item, or one that holds a call or stands for one.
fn begins_call(constructor: Option<u32>) -> bool
    ensures { result ≡ begins_call constructor }
{
    match constructor {
        None => true,
        Some(constructor) => !is_service(constructor) || is_calling(constructor),
    }
}

fn is_calling(constructor: u32) -> bool
    ensures { result ≡ list_any (λ calling. constructor == calling) calling_numbers }
{
    constructor == GZIP_PACKED
        || constructor == INVOKE_AFTER_MSG
        || constructor == INVOKE_AFTER_MSGS
        || constructor == AUTH_BIND_TEMP_AUTH_KEY
}
