//! Callers' tries, worked rows and vectors of the crates of keys, bindings, framings, obfuscated connections, and the texts
//! that the program reads: schedules, scripts, command lines and key files. A crate with tests is proved twice, so theirs
//! stand here, over what they hand out. There is nothing else in this crate.
#![tactic(auto)]

#[cfg(test)]
mod bindings;
#[cfg(test)]
mod blocks;
#[cfg(test)]
mod derived;
#[cfg(test)]
mod digits;
#[cfg(test)]
mod feeding;
#[cfg(test)]
mod files;
#[cfg(test)]
mod full_frames;
#[cfg(test)]
mod length_frames;
#[cfg(test)]
mod modes;
#[cfg(test)]
mod rings;
#[cfg(test)]
mod rows;
#[cfg(test)]
mod schedules;
#[cfg(test)]
mod scripts;
#[cfg(test)]
mod short_frames;
#[cfg(test)]
mod starts;
#[cfg(test)]
mod sums;
#[cfg(test)]
mod words;
