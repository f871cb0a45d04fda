//! Cases of whole runs of the program over memory, as a text (`stdin`): plays each, and tells how the runs end and what they write,
//! which the gate compares (`stdout`). Rows of these cost no proof. A case begins with its title and ends with an empty line; what
//! its lines may be stands in `cases.rt`.

mod cases;
mod outside;
mod running;

pub(crate) use cases::played;
