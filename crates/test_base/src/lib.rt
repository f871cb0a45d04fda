//! Callers' tries, worked rows and vectors of the crates of bytes, numbers, drawn words, TL values, service items and
//! containers. A crate with tests is proved twice, so theirs stand here, over what they hand out. There is nothing else
//! in this crate.
#![tactic(auto)]

#[cfg(test)]
mod drawn;
#[cfg(test)]
mod items;
#[cfg(test)]
mod numbers;
#[cfg(test)]
mod owned;
#[cfg(test)]
mod rows;
#[cfg(test)]
mod seeds;
#[cfg(test)]
mod texts;
#[cfg(test)]
mod unfolded;
