//! What one event of a client gives: the definitions that a client is judged by, over whole lists and a list of words
//! (core.telegram.org/mtproto/description, core.telegram.org/mtproto/service_messages,
//! core.telegram.org/mtproto/service_messages_about_messages). `specs/Client.antt` says what a client is,
//! `specs/Flush.antt` what it sends, and `specs/Taking.antt` what a packet changes. The laws show by worked events what
//! these definitions give.
#![tactic(auto)]

pub mod laws;
