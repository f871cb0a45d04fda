//! Cases of a client and a server as a program has them that imports `kifzaro` alone, as a text (`stdin`): plays each, call by
//! call, and tells what comes, which the gate compares (`stdout`). Rows of these cost no proof. A case begins with its title and
//! with the key that both ends share, `perm` or `temp`, and ends with an empty line; what its lines may be stands in `asking.rt`,
//! `answering.rt`, `passing.rt` and `making.rt`. What `callers.rt` has is proved, and runs in no case.

mod answering;
mod asking;
mod callers;
mod cases;
mod making;
mod passing;
mod telling;

pub(crate) use cases::played;
