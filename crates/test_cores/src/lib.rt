//! Callers' tries and worked rows of both cores: one session of a server and a server without a session, what it owes for calls
//! that wait, are dropped or come under a temporary key, one connection to it over memory; and a client's calls, those that it
//! takes and what becomes of them. There is nothing but tests here, as a crate with tests is proved twice.
#![tactic(auto)]

#[cfg(test)]
mod calls;
#[cfg(test)]
mod connections;
#[cfg(test)]
mod forgetting;
#[cfg(test)]
mod fresh;
#[cfg(test)]
mod owed;
#[cfg(test)]
mod sessions;
#[cfg(test)]
mod submits;
#[cfg(test)]
mod turns;
