//! Callers' tries and worked rows of the crates under a server: judging, kept replies, jobs, registers, packing and short
//! answers. There is nothing but tests here, as a crate with tests is proved twice.
#![tactic(auto)]

#[cfg(test)]
mod jobs;
#[cfg(test)]
mod judged;
#[cfg(test)]
mod packets;
#[cfg(test)]
mod registers;
#[cfg(test)]
mod replies;
#[cfg(test)]
mod salts;
#[cfg(test)]
mod short_answers;
#[cfg(test)]
mod steps;
#[cfg(test)]
mod windows;
