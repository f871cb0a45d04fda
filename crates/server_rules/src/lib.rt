//! What one event of a server owes: the definitions that a server is judged by, over whole lists and a list of words
//! (core.telegram.org/mtproto/description, core.telegram.org/mtproto/service_messages,
//! core.telegram.org/mtproto/service_messages_about_messages). `specs/Server.antt` says what a server is, `specs/Rows.antt`
//! what each judgement owes, and `specs/Answer.antt` what each event gives. The laws show by worked events what these
//! definitions give.
#![tactic(auto)]

pub mod laws;
