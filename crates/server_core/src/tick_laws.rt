//! Laws of a tick, in which several sessions may speak, each the contract of a function that does nothing.

ghost use Rattle.std.specs.Prelude.{◌≡◌, ◌∷◌, ◌++◌, List, All, false};
ghost use Rattle.waits.specs.Jobs.{overdue_count, overdue_count_of};
ghost use Rattle.server_rules.specs.Event.{Owed, Setting, State};
ghost use Rattle.server_rules.specs.Server.{Name, Server};
ghost use Rattle.server_rules.specs.Sending.{names_in};
ghost use Rattle.server_rules.specs.Answer.{after_tick, begun, is_spent, ticks};
ghost use Rattle.server_core.specs.One.{answer_of};
ghost use Rattle.server_core.specs.Ticking.{has_spoken, only, with_name};

use draws::Draw;

/// Where no job is overdue, none has failed before and each session has room for an event, a tick says nothing and changes
/// nothing but the moment.
pub fn quiet_ticks_say_nothing<D: Draw>()
    ensures { (setting : Setting D) (server : Server) (draw : D)
        → All (λ session. is_spent session ≡ false) server.sessions → All (λ one. one.failed ≡ false) server.jobs
        → overdue_count setting.now server.jobs ≡ 0
        → after_tick setting server draw ≡ answer_of setting (begun server draw) }
{}

/// What a tick makes of a session, its jobs, what it owes and its entries, is what it would make of that session alone. So
/// each session's share is told by its own jobs, whatever the others do.
pub fn each_session_ticks_alone<D: Draw>()
    ensures { (setting : Setting D) (name : Name) (state : State D)
        → only name (ticks setting state) ≡ ticks setting (only name state) }
{}

/// A session of which no job is overdue says nothing in a tick and keeps its jobs, where none has failed before.
pub fn quiet_sessions_say_nothing<D: Draw>()
    ensures { (setting : Setting D) (name : Name) (state : State D) → All (λ one. one.failed ≡ false) state.jobs
        → overdue_count_of name.key name.session setting.now state.jobs ≡ 0
        → only name (ticks setting state) ≡ only name state }
{}

/// Sessions send in the order of their first words: where one owes further messages, it comes behind the others, unless it
/// has its place already.
pub fn first_words_keep_their_order()
    ensures { (name : Name) (owed : List Owed) (one : Owed) (later : List Owed) → All (λ one. one.name ≡ name) (one ∷ later)
        → names_in (owed ++ one ∷ later) ≡ with_name (has_spoken name owed) name (names_in owed) }
{}
