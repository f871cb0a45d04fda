//! Laws of what a server owes, each the contract of a function that does nothing. Most show by an event what the
//! definitions give.

ghost use Rattle.std.specs.Prelude.{◌≡◌, ◌≤◌, ℕ, List, ◌∷◌, ◌++◌, [], Some, None, drop, map, length, true, false};
ghost use Rattle.tl_codec.specs.Spelling.{Truth, spelling};
ghost use Rattle.service_tl.specs.declared.item.Item.TheVariants.{RpcResult, NewSessionCreated, MsgsAck, MsgsStateInfo, RpcAnswerDropped, BadMsgNotification, FutureSalts, DestroySessionOk, DestroySessionNone};
ghost use Rattle.service_tl.specs.Items.{spelling_of};
ghost use Rattle.outbox.specs.Replies.{IsWithin, fits, kept_bytes_max};
ghost use Rattle.id_window.specs.Marks.{mark_of, given};
ghost use Rattle.id_window.specs.History.{History, Outcome, noted};
ghost use Rattle.inbox.specs.Judging.{first_mark};
ghost use Rattle.server_rules.specs.Server.{Reply, kept_replies, marks_of, reply_to};
ghost use Rattle.server_rules.specs.Speaking.{answers, made_room, without_oldest, auth_key_perm_empty, jobs_full, encrypted_message_invalid, msg_wait_failed, msg_wait_timeout};
ghost use Rattle.service_tl.specs.Results.{constructor_of};
ghost use Rattle.waits.specs.Limits.{most_jobs};
ghost use Rattle.waits.specs.declared.job.Job.{Job};
ghost use Rattle.waits.specs.Jobs.{job_count};
ghost use Rattle.server_rules.specs.Event.{Setting, Speaker};
ghost use Rattle.server_rules.specs.Calls.{is_unbound, query_refusal, refusal};
ghost use Rattle.server_rules.specs.Sending.{all_sent};
ghost use Rattle.server_rules.specs.Witness as shown;

use draws::Draw;

/// A session that is heard first, under salt 0, owes that it is new and its right salt, in one packet of 168 bytes. What
/// was refused isn't acknowledged.
pub fn first_packets()
    ensures owed { shown.messages_owed shown.first_packet ≡ shown.first_owed }
    ensures bytes { map shown.packet_bytes (all_sent shown.setting shown.first_packet).sent ≡ 168 ∷ [] }
    ensures no_entry { shown.first_packet.entries ≡ [] }
{}

/// Of a container of two calls and a third that waits for them, two jobs are ready and one waits, and all are received.
/// Where the first runs badly, the third is answered directly after it; where both run well, it is ready.
pub fn calls_that_wait()
    ensures jobs { shown.jobs_waiting shown.container_packet ≡ (8, []) ∷ (12, []) ∷ (16, 8 ∷ 12 ∷ []) ∷ [] }
    ensures owed { shown.messages_owed shown.container_packet ≡ shown.container_owed }
    ensures failed { shown.messages_owed shown.bad_run ≡ shown.result 9 1 8 shown.bad_request ∷ shown.result 13 3 16 msg_wait_failed ∷ [] }
    ensures failed_entries { shown.calls_entered shown.bad_run ≡ (8, true) ∷ (16, false) ∷ [] }
    ensures failed_jobs { shown.jobs_waiting shown.bad_run ≡ (12, []) ∷ [] }
    ensures second { shown.jobs_waiting shown.second_run ≡ (8, []) ∷ (16, 8 ∷ []) ∷ [] }
    ensures both { shown.jobs_waiting shown.both_runs ≡ (16, []) ∷ [] }
{}

/// An answered call that comes again is received again and owes its reply under the reply's own number and seq, once in
/// an event; none where the reply was acknowledged.
pub fn calls_that_come_again()
    ensures again { shown.messages_owed shown.repeated ≡ record { number = 15; seq = 2; body = spelling_of (MsgsAck (12 ∷ [])) } ∷ shown.result 9 1 12 shown.good_reply ∷ [] }
    ensures once { shown.messages_owed shown.repeated_twice ≡ record { number = 15; seq = 2; body = spelling_of (MsgsAck (12 ∷ [])) } ∷ shown.result 9 1 12 shown.good_reply ∷ [] }
    ensures acknowledged { shown.messages_owed shown.acknowledged ≡ record { number = 15; seq = 2; body = spelling_of (MsgsAck (12 ∷ [])) } ∷ [] }
{}

/// A request to drop an unfinished call owes its own answer, then that of the call, then that of one that waits for it; of
/// a finished call it owes what was dropped.
pub fn dropped_answers()
    ensures running { shown.messages_owed shown.drop_packet
        ≡ record { number = 11; seq = 0; body = spelling_of (MsgsAck (24 ∷ [])) } ∷ shown.result 13 1 24 shown.dropped_running
        ∷ shown.result 17 3 8 shown.dropped_running ∷ shown.result 21 5 16 msg_wait_failed ∷ [] }
    ensures running_entries { shown.calls_entered shown.drop_packet ≡ (8, false) ∷ (16, false) ∷ [] }
    ensures running_jobs { shown.jobs_waiting shown.drop_packet ≡ (12, []) ∷ [] }
    ensures kept { shown.messages_owed shown.drop_kept
        ≡ record { number = 15; seq = 2; body = spelling_of (MsgsAck (24 ∷ [])) } ∷ shown.result 17 3 24 (spelling_of (RpcAnswerDropped 9 1 24)) ∷ [] }
    ensures kept_entries { shown.drop_kept.entries ≡ [] }
{}

/// A container under the number of an accepted call is refused and not recorded: the call that comes again is received
/// again.
pub fn numbers_that_are_used()
    ensures refused { shown.messages_owed shown.number_used
        ≡ record { number = 9; seq = 0; body = spelling_of (BadMsgNotification 8 2 19) } ∷ [] }
    ensures again { shown.messages_owed shown.call_again ≡ record { number = 15; seq = 0; body = spelling_of (MsgsAck (8 ∷ [])) } ∷ [] }
    ensures jobs { shown.jobs_waiting shown.call_again ≡ (8, []) ∷ [] }
{}

/// A request for salts is answered by rows from the current one on, in 52 bytes for two; one to destroy another session of
/// the key ends that one, and its own session or none ends nothing.
pub fn salts_and_sessions()
    ensures salts { shown.messages_owed shown.salts_packet
        ≡ record { number = 7; seq = 0; body = spelling_of (MsgsAck (8 ∷ [])) }
        ∷ record { number = 9; seq = 0; body = spelling_of (FutureSalts 8 0 shown.two_salts) } ∷ [] }
    ensures salt_bytes { length (spelling_of (FutureSalts 8 0 shown.two_salts)) ≡ 52 }
    ensures destroyed { map (λ message. message.body) (shown.messages_owed (shown.destroy 10))
        ≡ spelling_of (MsgsAck (8 ∷ [])) ∷ spelling_of (DestroySessionOk 10) ∷ [] }
    ensures gone { map (λ session. session.number) (shown.destroy 10).sessions ≡ 9 ∷ [] }
    ensures own { map (λ message. message.body) (shown.messages_owed (shown.destroy 9))
        ≡ spelling_of (MsgsAck (8 ∷ [])) ∷ spelling_of (DestroySessionNone 9) ∷ [] }
    ensures none { map (λ message. message.body) (shown.messages_owed (shown.destroy 11))
        ≡ spelling_of (MsgsAck (8 ∷ [])) ∷ spelling_of (DestroySessionNone 11) ∷ [] }
    ensures stays { map (λ session. session.number) (shown.destroy 11).sessions ≡ 10 ∷ 9 ∷ [] }
{}

/// At a server of 256 sessions a further one takes the place of the one that was heard least recently.
pub fn full_servers()
    ensures { map (λ session. session.number) shown.many_sessions.sessions
        ≡ map (λ session. session.number) (shown.numbered_from 101 255) ++ 9 ∷ [] }
{}

/// A call to a session of 4,096 unfinished jobs is answered `JOBS_FULL` in place of running, unless its key isn't bound or
/// its query isn't one for the service.
pub fn full_sessions<D: Draw>()
    ensures { (setting : Setting D) (job : Job) (speaker : Speaker D) → is_unbound setting speaker ≡ false
        → query_refusal (constructor_of job.request) ≡ None → most_jobs ≤ job_count job.key job.session speaker.jobs
        → refusal setting job speaker ≡ Some jobs_full }
{}

/// A request for states is answered by a byte for each number.
pub fn states()
    ensures { shown.messages_owed shown.states_packet
        ≡ record { number = 5; seq = 0; body = spelling_of (MsgsStateInfo 24 (1 ∷ 4 ∷ 4 ∷ 36 ∷ 4 ∷ 2 ∷ 3 ∷ [])) } ∷ [] }
{}

/// A call under a temporary key that isn't bound is answered in place of running. A binding call is no entry, and after a
/// right one a call is a job.
pub fn temporary_keys()
    ensures unbound { shown.messages_owed shown.unbound_call
        ≡ record { number = 7; seq = 0; body = spelling_of (MsgsAck (8 ∷ [])) } ∷ shown.result 9 1 8 auth_key_perm_empty ∷ [] }
    ensures unbound_entries { shown.calls_entered shown.unbound_call ≡ (8, false) ∷ [] }
    ensures wrong { shown.messages_owed shown.wrong_binding
        ≡ record { number = 7; seq = 0; body = spelling_of (MsgsAck (8 ∷ [])) } ∷ shown.result 9 1 8 encrypted_message_invalid ∷ [] }
    ensures wrong_entries { shown.wrong_binding.entries ≡ [] }
    ensures right { shown.messages_owed shown.right_binding
        ≡ record { number = 7; seq = 0; body = spelling_of (MsgsAck (8 ∷ [])) } ∷ shown.result 9 1 8 (spelling Truth true) ∷ [] }
    ensures right_entries { shown.right_binding.entries ≡ [] }
    ensures bindings { shown.right_binding.bindings ≡ shown.binding ∷ [] }
    ensures bound { shown.jobs_waiting shown.bound_call ≡ (12, []) ∷ [] }
{}

/// A tick answers each job that has waited 30 seconds, and no sooner, and after all these the jobs that fail by that. An
/// attach sends all kept replies in order of making, or that the session is new.
pub fn ticks_and_attaches()
    ensures early { shown.messages_owed (shown.ticked 29) ≡ [] }
    ensures late { shown.calls_entered (shown.ticked 30) ≡ (16, false) ∷ [] }
    ensures late_owed { map (λ message. message.body) (shown.messages_owed (shown.ticked 30)) ≡ (shown.result 0 0 16 msg_wait_timeout).body ∷ [] }
    ensures chain { map (λ message. message.body) (shown.messages_owed shown.chain_ticked)
        ≡ (shown.result 0 0 8 msg_wait_timeout).body ∷ (shown.result 0 0 12 msg_wait_timeout).body
        ∷ (shown.result 0 0 16 msg_wait_failed).body ∷ [] }
    ensures kept { shown.messages_owed shown.attached ≡ shown.result 9 1 12 shown.good_reply ∷ shown.result 13 3 8 shown.good_reply ∷ [] }
    ensures new { shown.messages_owed shown.attached_new ≡ record { number = 7; seq = 1; body = spelling_of (NewSessionCreated 4 7 5) } ∷ [] }
{}

/// Room for a further reply is made from the front: nothing changes where it fits, else the oldest kept reply is dropped
/// and it is tried again. So the kept replies of a session are within the limits once it has answered.
pub fn oldest_replies_are_dropped<D: Draw>()
    ensures there { (bytes : ℕ) (replies : List Reply) → fits bytes (kept_replies replies) ≡ true → made_room bytes replies ≡ replies }
    ensures more { (bytes : ℕ) (replies : List Reply) → fits bytes (kept_replies replies) ≡ false
        → made_room bytes replies ≡ made_room bytes (without_oldest replies) }
    ensures oldest { (replies : List Reply) → kept_replies (without_oldest replies) ≡ drop 1 (kept_replies replies) }
    ensures within { (setting : Setting D) (call : ℕ) (content : List ℕ) (speaker : Speaker D)
        → length (spelling_of (RpcResult call content)) ≤ kept_bytes_max
        → IsWithin (kept_replies (answers setting call content speaker).session.replies) }
{}

/// The marks of a session follow its history and its replies: a further judgement of a number without a reply gives it the
/// first mark of its outcome, and what becomes of a reply changes no mark but that of its call.
pub fn marks_follow_history()
    ensures noted { (number seq : ℕ) (outcome : Outcome) (history : History) (replies : List Reply) → reply_to number replies ≡ None
        → marks_of (noted number seq outcome history) replies ≡ given number (first_mark outcome) (marks_of history replies) }
    ensures others { (history : History) (replies others : List Reply) (number : ℕ) → reply_to number replies ≡ reply_to number others
        → mark_of number (marks_of history replies) ≡ mark_of number (marks_of history others) }
{}
