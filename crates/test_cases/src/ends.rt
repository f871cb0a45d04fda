//! Cases of a server, of a client and of batches of calls, as a text (`stdin`): plays each, event by event, and tells what
//! comes, which the gate compares (`stdout`). Rows of these cost no proof. A case begins with its title and with how its
//! packets are sealed, and ends with an empty line; what its lines may be stands in `serving.rt`, `talking.rt`, `batching.rt`
//! and `cases.rt`.

mod batching;
mod cases;
mod parts;
mod serving;
mod talking;
mod telling;
mod zeros;

pub(crate) use cases::played;
