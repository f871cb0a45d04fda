//! Callers' tries, worked rows and vectors of crates whose proofs are long, over what they hand out: of seals, wires, worlds and the
//! texts of their reports, and of a journal on a disk and a server that keeps one: bytes, files that are cut, changed or refused,
//! what comes back after a stop at any moment, and what a failing disk leaves. There is nothing but tests here, as a crate with
//! tests is proved twice. A server plays steps, each a word, and tells each as a word.
#![tactic(auto)]

#[cfg(test)]
mod adding;
#[cfg(test)]
mod desks;
#[cfg(test)]
mod envelopes;
#[cfg(test)]
mod files;
#[cfg(test)]
mod kinds;
#[cfg(test)]
mod lines;
#[cfg(test)]
mod play;
#[cfg(test)]
mod reading;
#[cfg(test)]
mod rows;
#[cfg(test)]
mod seals;
#[cfg(test)]
mod server_stops;
#[cfg(test)]
mod stepped;
#[cfg(test)]
mod stops;
#[cfg(test)]
mod wires;
