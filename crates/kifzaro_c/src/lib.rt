//! Both ends of a session as functions that C calls, in a static library: a thin layer over `kifzaro`, whose contracts say what
//! each call does. A handle is a pointer that owns a client or a server; bytes come in and go out by slices, numbers go out by
//! references, and each function answers a number of `status`. What stands in front of it, in C (`bindings/c/kifzaro.c`), tests
//! what no contract here can: that no pointer is null and that a handle is of the right kind.
#![tactic(auto)]

mod client_exports;
mod client_handle;
mod loose;
#[cfg(test)]
mod refused;
mod seed;
mod server_exports;
mod server_handle;
mod status;
#[cfg(test)]
mod talks;
