//! Callers' tries and worked rows of commands and of what they stand on, whose further rows are cases of `test_cases`: a batch over
//! two servers, of which the first is lost; the check of traces; a relay's captures in every form that is obfuscated, towards
//! every plain one, however they are cut. There is nothing but tests here, as a crate with tests is proved twice.
#![tactic(auto)]

#[cfg(test)]
mod captures;
#[cfg(test)]
mod checks;
#[cfg(test)]
mod ends;
#[cfg(test)]
mod faults;
#[cfg(test)]
mod forms;
#[cfg(test)]
mod nets;
#[cfg(test)]
mod relays;
