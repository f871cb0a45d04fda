//! Callers' tries of the outside: sources, sinks, links, nets, clocks, children and files, in memory and of this machine.
//! A crate with tests is proved twice, so theirs stand here, over what they hand out. There is nothing else in this crate.
#![tactic(auto)]

#[cfg(test)]
mod asked;
#[cfg(test)]
mod faulty_files;
#[cfg(test)]
mod files;
#[cfg(test)]
mod kids;
#[cfg(test)]
mod links;
#[cfg(test)]
mod once;
#[cfg(test)]
mod refusals;
#[cfg(test)]
mod texts;
