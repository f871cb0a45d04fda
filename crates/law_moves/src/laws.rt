//! What holds of every list of lawful moves, what a list of moves leaves as it was, and runs.

ghost use Rattle.std.specs.Prelude.{◌≡◌, ◌≢◌, ℕ, suc, ◌^◌, ◌<◌, ◌≤◌, ◌==◌, Bool, ◌||◌, length, List, [], ◌∷◌, ◌++◌, ◌⊎◌, map, Some, None, true, false};
ghost use Rattle.std.specs.List.{Contains, All, AllPairs, list_all};
ghost use Rattle.law_moves.specs.Table.State.{Queued, Sent, Held, Done, Refused, Unknown};
ghost use Rattle.law_moves.specs.Table.Status.{Unmade, Standing, Lost};
ghost use Rattle.law_moves.specs.Table.Cause.{ServerSessionLost, Ended, Forgotten};
ghost use Rattle.law_moves.specs.Table.Outcome.{AcceptedOther};
ghost use Rattle.law_moves.specs.Table.Item.{NewSession, Result, Notice, WrongSalt};
ghost use Rattle.law_moves.specs.Table.{CallId, Text, State, Name, Message, Outcome, Item, Packet, Entry, call_at};
ghost use Rattle.law_moves.specs.World.{World, Owns, IsName, IsUnder, start};
ghost use Rattle.law_moves.specs.Move.{Part, Move};
ghost use Rattle.law_moves.specs.Move.OwnAct.{NewClient, Renew, Submit, GiveUp, End};
ghost use Rattle.law_moves.specs.Move.Part.{First, Again, Other, OtherAgain};
ghost use Rattle.law_moves.specs.Move.Move.{Own, Send, Make, Draw, Judge, Forget, Answer, Speak, Hear, Lose};
ghost use Rattle.law_moves.specs.After.{after, after_part, after_parts, message_of, name_of, after_settled, state_noticed, newest_salts, state_learnt, after_learnt, end_client, learn, after_salt, after_item, after_heard, after_items, state_renewed, state_ended, LEARNT_MAX};
ghost use Rattle.law_moves.specs.Lawful.{IsLawful, MaySay};
ghost use Rattle.law_moves.specs.LawfulBut.{IsLawfulBut, NO_PLACE};
ghost use Rattle.law_moves.specs.Reached.{Reached, AreLawful, after_all};
ghost use Rattle.law_moves.specs.Extends.{Extends, LeavesServers, LeavesClients, LeavesCalls, LeavesSubmitted, LeavesMessages, LeavesPackets, LeavesEntries, IsOfServer, IsOfClient};
ghost use Rattle.law_moves.specs.Given.{given, Rises};
ghost use Rattle.law_moves.specs.Once.{Once, IsDecided};
ghost use Rattle.law_moves.specs.Safe.{Salts, Numbers, OneTaker};
ghost use Rattle.law_moves.specs.Needed.{Breaks, BreaksOneTaker, RunsTwice, taken_session, taken_by_renewal, made_again, given_up_sent, given_again, not_queued, again_unsent, other_number, old_number, number_of_a_call, two_at_once, salt_of_zero, drawn_again, invented_message, judged_elsewhere, judged_again, other_body, foreign_salt, outcome_of_twenty, early_forget, other_request, answered_again, names_another, foreign_first_salt, invented_result, early_result, invented_notice, invented_wrong_salt, foreign_new_salt, silent, invented_packet, foreign_packet};
ghost use Rattle.law_moves.specs.Witness.{reply, entry_of, refusal, resent, lost, first_contact, two_clients, held_at_first, held, ended, given_up, forgotten, sent_again};

/// Whatever lawful moves clients and servers make, each call is executed at most once and reported as it was, and
/// salts, numbers and server sessions are as that needs.
pub fn moves_execute_once()
    ensures once { (w : World) → Reached w → Once w }
    ensures salts { (w : World) → Reached w → Salts w }
    ensures numbers { (w : World) → Reached w → Numbers w }
    ensures one_taker { (w : World) → Reached w → OneTaker w }
{}

/// A list of lawful moves may go on after any other.
pub fn moves_go_on()
    ensures reached { (w : World) (moves : List Move) → Reached w → AreLawful w moves → Reached (after_all w moves) }
    ensures lawful { (w : World) (before moves : List Move) → AreLawful w before → AreLawful (after_all w before) moves
        → AreLawful w (before ++ moves) }
    ensures after { (w : World) (before moves : List Move) → after_all w (before ++ moves) ≡ after_all (after_all w before) moves }
{}

/// What was decided or done stays so: a call that is done, refused or unknown keeps its state whatever moves come, and
/// an entry is never taken away.
pub fn decisions_stay()
    ensures decided { (w : World) (moves : List Move) (call : CallId) → AreLawful w moves → call.place < w.submitted call.client
        → IsDecided (w.calls call).state → ((after_all w moves).calls call).state ≡ (w.calls call).state }
    ensures executed { (w : World) (moves : List Move) (entry : Entry) → AreLawful w moves
        → Contains w.entries entry → Contains (after_all w moves).entries entry }
{}

/// Lawful moves only add: messages, packets down, entries, names, and to each server session its salts, outcomes and
/// forgotten numbers.
pub fn moves_only_add()
    ensures { (w : World) (moves : List Move) → AreLawful w moves → Extends w (after_all w moves) }
{}

/// What lasts for good: a client that was made stays made, owns its session numbers and stays ended, and a call that was
/// submitted keeps its body.
pub fn clients_and_bodies_last()
    ensures made { (w : World) (moves : List Move) (client : ℕ) → AreLawful w moves → (w.clients client).present ≢ 0
        → ((after_all w moves).clients client).present ≢ 0 }
    ensures owned { (w : World) (moves : List Move) (client session : ℕ) → AreLawful w moves → (w.clients client).present ≢ 0
        → Owns (w.clients client) session → Owns ((after_all w moves).clients client) session }
    ensures ended { (w : World) (moves : List Move) (client : ℕ) → AreLawful w moves → (w.clients client).present ≢ 0
        → (w.clients client).ended ≡ true → ((after_all w moves).clients client).ended ≡ true }
    ensures bodies { (w : World) (moves : List Move) (call : CallId) → AreLawful w moves → call.place < w.submitted call.client
        → ((after_all w moves).calls call).body ≡ (w.calls call).body }
{}

/// The parts of a world that a list of moves, lawful or not, leaves as they were.
pub fn moves_leave()
    ensures servers { (w : World) (moves : List Move) → All LeavesServers moves → (after_all w moves).servers ≡ w.servers }
    ensures clients { (w : World) (moves : List Move) → All LeavesClients moves → (after_all w moves).clients ≡ w.clients }
    ensures calls { (w : World) (moves : List Move) → All LeavesCalls moves → (after_all w moves).calls ≡ w.calls }
    ensures submitted { (w : World) (moves : List Move) → All LeavesSubmitted moves → (after_all w moves).submitted ≡ w.submitted }
    ensures messages { (w : World) (moves : List Move) → All LeavesMessages moves → (after_all w moves).ups ≡ w.ups }
    ensures packets { (w : World) (moves : List Move) → All LeavesPackets moves → (after_all w moves).downs ≡ w.downs }
    ensures entries { (w : World) (moves : List Move) → All LeavesEntries moves → (after_all w moves).entries ≡ w.entries }
    ensures other_servers { (w : World) (unique other : ℕ) (moves : List Move) → All (IsOfServer unique) moves → other ≢ unique
        → (after_all w moves).servers other ≡ w.servers other }
    ensures other_clients { (w : World) (client other : ℕ) (moves : List Move) → All (IsOfClient client) moves → other ≢ client
        → (after_all w moves).clients other ≡ w.clients other }
    ensures other_calls { (w : World) (client : ℕ) (call : CallId) (moves : List Move) → All (IsOfClient client) moves
        → call.client ≢ client → (after_all w moves).calls call ≡ w.calls call }
{}

/// What a move of a server session makes of that server session, of the entries and of the packets down.
pub fn server_moves_make()
    ensures make { (w : World) (unique session : ℕ) → (after w (Make unique session)).servers unique
        ≡ record (w.servers unique) { session = session; made = w.time; status = Standing } }
    ensures draw { (w : World) (unique salt : ℕ) → (after w (Draw unique salt)).servers unique
        ≡ record (w.servers unique) { salts = salt ∷ (w.servers unique).salts } }
    ensures judge { (w : World) (unique : ℕ) (message : Message) (outcome : Outcome) → (after w (Judge unique message outcome)).servers unique
        ≡ record (w.servers unique) { judged = record { number = message.number; outcome = outcome } ∷ (w.servers unique).judged } }
    ensures forget { (w : World) (unique number : ℕ) → (after w (Forget unique number)).servers unique
        ≡ record (w.servers unique) { forgotten = number ∷ (w.servers unique).forgotten } }
    ensures lose { (w : World) (unique : ℕ) → (after w (Lose unique)).servers unique
        ≡ record (w.servers unique) { status = Lost w.time } }
    ensures answer { (w : World) (unique number : ℕ) (body reply : Text) → (after w (Answer unique number body reply)).entries
        ≡ record { server = unique; number = number; request = body; reply = reply } ∷ w.entries }
    ensures speak { (w : World) (unique : ℕ) (items : List Item) → (after w (Speak unique items)).downs
        ≡ record { server = unique; items = items } ∷ w.downs }
{}

/// What a client's own act makes of that client and of its calls.
pub fn own_acts_make()
    ensures new_client { (w : World) (client session : ℕ) → (after w (Own (NewClient client session))).clients client
        ≡ record { present = session; former = []; salt = 0; learnt = []; ended = false } }
    ensures renewed { (w : World) (client session : ℕ) → (after w (Own (Renew client session))).clients client
        ≡ record (w.clients client) { present = session; former = (w.clients client).present ∷ (w.clients client).former; salt = 0; learnt = [] } }
    ensures renewed_calls { (w : World) (client place session : ℕ) → (after w (Own (Renew client session))).calls (call_at client place)
        ≡ record (w.calls (call_at client place)) { state = state_renewed (w.calls (call_at client place)).state } }
    ensures submitted { (w : World) (client : ℕ) (body : Text)
        → (after w (Own (Submit client body))).calls (call_at client (w.submitted client))
        ≡ record (w.calls (call_at client (w.submitted client))) { body = body; state = Queued } }
    ensures counted { (w : World) (client : ℕ) (body : Text) → (after w (Own (Submit client body))).submitted client ≡ suc (w.submitted client) }
    ensures given_up { (w : World) (call : CallId) → (after w (Own (GiveUp call))).calls call ≡ record (w.calls call) { state = Refused 0 } }
    ensures ended { (w : World) (client : ℕ) → (after w (Own (End client))).clients client ≡ record (w.clients client) { ended = true } }
    ensures ended_calls { (w : World) (client place : ℕ) → (after w (Own (End client))).calls (call_at client place)
        ≡ record (w.calls (call_at client place)) { state = state_ended (w.calls (call_at client place)).state } }
{}

/// Each move takes one step of time.
pub fn time_goes_on()
    ensures { (w : World) (move : Move) → (after w move).time ≡ suc w.time }
{}

/// What one message of a packet up makes of the messages and of its client's calls, and a packet of its messages in turn.
pub fn parts_make()
    ensures sent { (w : World) (client : ℕ) (parts : List Part) → after w (Send client parts)
        ≡ record (after_parts w client parts) { time = suc w.time } }
    ensures no_part { (w : World) (client : ℕ) → after_parts w client [] ≡ w }
    ensures each_part { (w : World) (client : ℕ) (part : Part) (parts : List Part) → after_parts w client (part ∷ parts)
        ≡ after_parts (after_part w client part) client parts }

    ensures first_message { (w : World) (client place number : ℕ) → (after_part w client (First place number)).ups
        ≡ message_of (w.clients client) number (Some (w.calls (call_at client place)).body) ∷ w.ups }
    ensures first_call { (w : World) (client place number : ℕ) → (after_part w client (First place number)).calls (call_at client place)
        ≡ record (w.calls (call_at client place)) { state = Sent; names = name_of w (w.clients client) number ∷ (w.calls (call_at client place)).names } }
    ensures first_others { (w : World) (client place number : ℕ) (call : CallId) → call ≢ call_at client place
        → (after_part w client (First place number)).calls call ≡ w.calls call }
    ensures again { (w : World) (client place number : ℕ) → (after_part w client (Again place number)).ups
        ≡ message_of (w.clients client) number (Some (w.calls (call_at client place)).body) ∷ w.ups }
    ensures again_calls { (w : World) (client place number : ℕ) → (after_part w client (Again place number)).calls ≡ w.calls }
    ensures other { (w : World) (client number : ℕ) → after_part w client (Other number)
        ≡ record w { ups = message_of (w.clients client) number None ∷ w.ups } }
    ensures other_again { (w : World) (client number : ℕ) → after_part w client (OtherAgain number)
        ≡ record w { ups = message_of (w.clients client) number None ∷ w.ups } }
{}

/// What a client makes of a packet: one item after another, with what `takes` says of it, or false where that says nothing.
pub fn packets_make()
    ensures heard { (w : World) (client : ℕ) (packet : Packet) (takes : List Bool) → after w (Hear client packet takes)
        ≡ record (after_items w client packet.items takes) { time = suc w.time } }
    ensures no_item { (w : World) (client : ℕ) (takes : List Bool) → after_items w client [] takes ≡ w }
    ensures each_item { (w : World) (client : ℕ) (item : Item) (items : List Item) (take : Bool) (takes : List Bool)
        → after_items w client (item ∷ items) (take ∷ takes) ≡ after_items (after_heard w client item take) client items takes }
    ensures each_other { (w : World) (client : ℕ) (item : Item) (items : List Item)
        → after_items w client (item ∷ items) [] ≡ after_items (after_heard w client item false) client items [] }

    // A client that has ended leaves an item.
    ensures left { (w : World) (client : ℕ) (item : Item) (takes : Bool) → (w.clients client).ended ≡ true
        → after_heard w client item takes ≡ w }
    ensures taken { (w : World) (client : ℕ) (item : Item) (takes : Bool) → (w.clients client).ended ≡ false
        → after_heard w client item takes ≡ after_item w client item takes }

    // Which item does what.
    ensures item_new { (w : World) (client unique salt : ℕ) (takes : Bool)
        → after_item w client (NewSession unique salt) takes ≡ learn w client unique salt }
    ensures item_result { (w : World) (client number : ℕ) (reply : Text) (takes : Bool)
        → after_item w client (Result number reply) takes ≡ after_settled w client number (Done reply) }
    ensures item_notice { (w : World) (client number code : ℕ) (takes : Bool)
        → after_item w client (Notice number code) takes ≡ after_settled w client number (state_noticed code) }
    ensures item_wrong_salt { (w : World) (client number salt : ℕ) (takes : Bool) → after_item w client (WrongSalt number salt) takes
        ≡ after_salt (after_settled w client number (state_noticed 48)) client salt takes }
    ensures noticed_again { (state_noticed 16 ≡ Queued) × (state_noticed 48 ≡ Queued) }
    ensures noticed_high { state_noticed 17 ≡ Held }
    ensures noticed_old { state_noticed 20 ≡ Unknown Forgotten }
    ensures noticed_other { (code : ℕ) → code ≢ 16 → code ≢ 48 → code ≢ 17 → code ≢ 20 → state_noticed code ≡ Refused code }
{}

/// What an item that is heard makes of a client and of its calls.
pub fn items_make()
    // A unique number: one that was learnt, a new one, and one more than there is room for.
    ensures known { (w : World) (client unique salt : ℕ) → Contains (w.clients client).learnt unique → learn w client unique salt ≡ w }
    ensures new { (w : World) (client unique salt : ℕ) → (Contains (w.clients client).learnt unique → ⊥)
        → length (w.clients client).learnt < LEARNT_MAX → learn w client unique salt ≡ after_learnt w client unique salt }
    ensures full { (w : World) (client unique salt : ℕ) → (Contains (w.clients client).learnt unique → ⊥)
        → LEARNT_MAX ≤ length (w.clients client).learnt → learn w client unique salt ≡ end_client w client }

    // A client that has ended leaves a packet.
    ensures ended { (w : World) (client : ℕ) (items : List Item) (takes : List Bool) → (w.clients client).ended ≡ true
        → after_items w client items takes ≡ w }

    // A result or a notice: the call whose living name it is about gets the state, and what isn't sent stays.
    ensures settled { (w : World) (client number : ℕ) (state : State) (call : CallId) (name : Name) (older : List Name)
        → call.client ≡ client → (w.calls call).state ≡ Sent → (w.calls call).names ≡ name ∷ older
        → name.session ≡ (w.clients client).present → name.number ≡ number
        → (after_settled w client number state).calls call ≡ record (w.calls call) { state = state } }
    ensures unsent { (w : World) (client number : ℕ) (state : State) (call : CallId) → (w.calls call).state ≢ Sent
        → (after_settled w client number state).calls call ≡ w.calls call }
    ensures others_stay { (w : World) (client number : ℕ) (state : State) (call : CallId) (name : Name) (older : List Name)
        → (w.calls call).names ≡ name ∷ older → (name.session ≡ (w.clients client).present → name.number ≢ number)
        → (after_settled w client number state).calls call ≡ w.calls call }
    ensures of_others { (w : World) (client number : ℕ) (state : State) (call : CallId) → call.client ≢ client
        → (after_settled w client number state).calls call ≡ w.calls call }
    ensures settled_clients { (w : World) (client number : ℕ) (state : State) → (after_settled w client number state).clients ≡ w.clients }

    // A new salt: the client takes it over, or doesn't; calls stay.
    ensures salt_taken { (w : World) (client salt : ℕ) → (after_salt w client salt true).clients client
        ≡ record (w.clients client) { salt = salt } }
    ensures salt_left { (w : World) (client salt : ℕ) → (after_salt w client salt false).clients client ≡ w.clients client }
    ensures salt_calls { (w : World) (client salt : ℕ) (takes : Bool) → (after_salt w client salt takes).calls ≡ w.calls }
{}

/// What a unique number that a client learns makes of the client and of its calls.
pub fn what_is_learnt_makes()
    ensures learnt_client { (w : World) (client unique salt : ℕ) → (after_learnt w client unique salt).clients client
        ≡ record (w.clients client) { salt = salt; learnt = unique ∷ (w.clients client).learnt } }
    ensures learnt_calls { (w : World) (client unique salt : ℕ) (call : CallId) → call.client ≡ client → (w.calls call).state ≡ Sent
        → (after_learnt w client unique salt).calls call
        ≡ record (w.calls call) { state = state_learnt (w.clients client).learnt salt (newest_salts w.ups (w.calls call).names) } }
    ensures unsent { (w : World) (client unique salt : ℕ) (call : CallId) → (w.calls call).state ≢ Sent
        → (after_learnt w client unique salt).calls call ≡ w.calls call }
    ensures of_others { (w : World) (client unique salt : ℕ) (call : CallId) → call.client ≢ client
        → (after_learnt w client unique salt).calls call ≡ w.calls call }

    // A call that was sent under these salts: under 0 alone; under 0 and the new one, where it is the first that is learnt;
    // else.
    ensures unsalted { (learnt salts : List ℕ) (salt : ℕ) → list_all (λ under. under == 0) salts ≡ true
        → state_learnt learnt salt salts ≡ Queued }
    ensures salted { (salts : List ℕ) (salt : ℕ) → list_all (λ under. under == 0) salts ≡ false
        → list_all (λ under. (under == 0) || (under == salt)) salts ≡ true → state_learnt [] salt salts ≡ Sent }
    ensures salted_else { (salts : List ℕ) (salt : ℕ) → list_all (λ under. under == 0) salts ≡ false
        → list_all (λ under. (under == 0) || (under == salt)) salts ≡ false → state_learnt [] salt salts ≡ Unknown ServerSessionLost }
    ensures learnt_before { (unique : ℕ) (learnt salts : List ℕ) (salt : ℕ) → list_all (λ under. under == 0) salts ≡ false
        → state_learnt (unique ∷ learnt) salt salts ≡ Unknown ServerSessionLost }
{}

/// What wasn't made yet has nothing: a call that wasn't submitted has no name, a server session that wasn't made no salt,
/// outcome or forgotten number, and a client that wasn't made no former session number.
pub fn what_was_not_made_is_blank()
    ensures calls { (w : World) (call : CallId) → Reached w → w.submitted call.client ≤ call.place
        → ((w.calls call).names ≡ []) × ((w.calls call).state ≡ Refused 0) }
    ensures servers { (w : World) (unique : ℕ) → Reached w → (w.servers unique).status ≡ Unmade
        → ((w.servers unique).salts ≡ []) × ((w.servers unique).judged ≡ []) × ((w.servers unique).forgotten ≡ []) }
    ensures clients { (w : World) (client : ℕ) → Reached w → (w.clients client).present ≡ 0
        → ((w.clients client).former ≡ []) × ((w.clients client).ended ≡ false) }
{}

/// The salt of a message is 0, or belongs to a server session that was made. So what is no server session's salt, and
/// isn't 0, is no message's.
pub fn salts_are_drawn()
    ensures of_message { (w : World) (message : Message) → Reached w → Contains w.ups message
        → (message.salt ≡ 0) ⊎ ((unique : ℕ) × Contains (w.servers unique).salts message.salt × ((w.servers unique).status ≢ Unmade)) }
    ensures new { (w : World) (salt : ℕ) → Reached w → salt ≢ 0 → ((unique : ℕ) → Contains (w.servers unique).salts salt → ⊥)
        → All (λ message. message.salt ≢ salt) w.ups }
{}

/// A client gives no number twice under one session number: the numbers that it gives rise, and what was sent under a
/// number is one call, or no call at all. Where it is no call, any result may be said for the number, and any notice.
pub fn numbers_are_given_once()
    ensures rising { (w : World) (moves : List Move) → AreLawful w moves → AllPairs Rises (given w moves) }
    ensures once { (w : World) (one other : Message) → Reached w → Contains w.ups one → Contains w.ups other
        → one.session ≡ other.session → one.number ≡ other.number → one.call ≡ other.call }
    ensures no_name { (w : World) (message : Message) → Reached w → Contains w.ups message → message.call ≡ None
        → IsName w.calls message.session message.number → ⊥ }
    ensures any_result { (w : World) (unique : ℕ) (message : Message) (reply : Text) → Reached w → Contains w.ups message
        → message.session ≡ (w.servers unique).session → message.call ≡ None → MaySay w unique (Result message.number reply) }
    ensures any_notice { (w : World) (unique : ℕ) (message : Message) (code : ℕ) → Reached w → Contains w.ups message
        → message.session ≡ (w.servers unique).session → message.call ≡ None → MaySay w unique (Notice message.number code) }
{}

/// A name is of one call, stands once among the names of that call, and was sent. Each session number of a name or of a
/// message is one client's alone.
pub fn names_are_apart()
    ensures of_one { (w : World) (one other : CallId) (name same : Name) → Reached w → Contains (w.calls one).names name
        → Contains (w.calls other).names same → name.session ≡ same.session → name.number ≡ same.number → one ≡ other }
    ensures newest { (w : World) (call : CallId) (name same : Name) (older : List Name) → Reached w → (w.calls call).names ≡ name ∷ older
        → Contains older same → name.session ≡ same.session → name.number ≡ same.number → ⊥ }
    ensures sent { (w : World) (call : CallId) (name : Name) → Reached w → Contains (w.calls call).names name
        → (message : Message) × Contains w.ups message × IsUnder name message }
    ensures of_name { (w : World) (call : CallId) (name : Name) → Reached w → Contains (w.calls call).names name
        → Owns (w.clients call.client) name.session }
    ensures of_message { (w : World) (message : Message) → Reached w → Contains w.ups message
        → (client : ℕ) × Owns (w.clients client) message.session }
    ensures one_owner { (w : World) (one other session : ℕ) → Reached w → Owns (w.clients one) session → Owns (w.clients other) session
        → one ≡ other }
{}

/// Lawful moves may lead a call that was refused for its salt to its one execution, and its client to the result.
pub fn calls_can_be_done()
    ensures lawful { AreLawful start resent }
    ensures refused_first { Contains ((after_all start resent).servers 11).judged refusal }
    ensures renumbered { map (λ name. name.number) ((after_all start resent).calls (call_at 0 0)).names ≡ 8 ∷ 4 ∷ [] }
    ensures done { ((after_all start resent).calls (call_at 0 0)).state ≡ Done reply }
{}

/// Lawful moves may lose a call's server session after its execution, and its client can't know then.
pub fn calls_can_be_unknown()
    ensures lawful { AreLawful start lost }
    ensures executed { (after_all start lost).entries ≡ entry_of 11 4 ∷ [] }
    ensures unknown { ((after_all start lost).calls (call_at 0 0)).state ≡ Unknown ServerSessionLost }
{}

/// A client may begin with salt 0, hear of the server session that its packet made, and send its call again.
pub fn sessions_can_begin()
    ensures lawful { AreLawful start first_contact }
    ensures renumbered { map (λ name. name.number) ((after_all start first_contact).calls (call_at 0 0)).names ≡ 12 ∷ 4 ∷ [] }
    ensures executed { (after_all start first_contact).entries ≡ entry_of 11 12 ∷ [] }
    ensures done { ((after_all start first_contact).calls (call_at 0 0)).state ≡ Done reply }
    ensures salted { ((after_all start first_contact).clients 0).salt ≡ 21 }
    ensures learnt { ((after_all start first_contact).clients 0).learnt ≡ 11 ∷ [] }
{}

/// Two clients may give their calls the same number, each under its own session number.
pub fn clients_can_be_two()
    ensures lawful { AreLawful start two_clients }
    ensures executed { (after_all start two_clients).entries ≡ entry_of 12 4 ∷ entry_of 11 4 ∷ [] }
    ensures first_done { ((after_all start two_clients).calls (call_at 0 0)).state ≡ Done reply }
    ensures second_done { ((after_all start two_clients).calls (call_at 1 0)).state ≡ Done reply }
{}

/// A call whose number was too high is held, and may run once its client has renewed.
pub fn calls_can_be_held()
    ensures lawful { AreLawful start held }
    ensures held { ((after_all start held_at_first).calls (call_at 0 0)).state ≡ Held }
    ensures renumbered { map (λ name. name.number) ((after_all start held).calls (call_at 0 0)).names ≡ 4 ∷ 2 ^ 40 ∷ [] }
    ensures executed { (after_all start held).entries ≡ entry_of 12 4 ∷ [] }
    ensures done { ((after_all start held).calls (call_at 0 0)).state ≡ Done reply }
    ensures renewed { ((after_all start held).clients 0).former ≡ 1 ∷ [] }
{}

/// A client may end, and give up a call that is queued.
pub fn clients_can_end()
    ensures lawful { AreLawful start ended }
    ensures executed { (after_all start ended).entries ≡ entry_of 11 4 ∷ [] }
    ensures sent { ((after_all start ended).calls (call_at 0 0)).state ≡ Unknown Ended }
    ensures queued { ((after_all start ended).calls (call_at 0 1)).state ≡ Refused 0 }
    ensures gives_up { AreLawful start given_up }
    ensures given_up { ((after_all start given_up).calls (call_at 0 0)).state ≡ Refused 0 }
{}

/// A server session may forget a number, and its client hears so.
pub fn numbers_can_be_forgotten()
    ensures lawful { AreLawful start forgotten }
    ensures executed { (after_all start forgotten).entries ≡ [] }
    ensures unknown { ((after_all start forgotten).calls (call_at 0 0)).state ≡ Unknown Forgotten }
{}

/// A message that is no call may be sent again under its number and a new salt.
pub fn messages_can_be_sent_again()
    ensures lawful { AreLawful start sent_again }
    ensures accepted { ((after_all start sent_again).servers 12).judged ≡ record { number = 4; outcome = AcceptedOther } ∷ [] }
{}

/// Runs of which one move lacks one condition of a lawful move and no other. Each ends in a world where the law doesn't
/// hold, so the law needs that condition. Nor may a client queue a call again whose server session was lost.
pub fn conditions_are_needed()
    // What is lawful is lawful but for any condition, and what is lawful but for none is lawful.
    ensures weaker { (place : ℕ) (w : World) (move : Move) → IsLawful w move → IsLawfulBut place w move }
    ensures whole { (w : World) (move : Move) → IsLawfulBut NO_PLACE w move → IsLawful w move }

    ensures taken_session { Breaks taken_session }
    ensures taken_by_renewal { Breaks taken_by_renewal }
    ensures made_again { Breaks made_again }
    ensures given_up_sent { Breaks given_up_sent }

    ensures given_again { Breaks given_again }
    ensures not_queued { Breaks not_queued }
    ensures again_unsent { Breaks again_unsent }
    ensures other_number { Breaks other_number }
    ensures old_number { BreaksOneTaker old_number }
    ensures number_of_a_call { BreaksOneTaker number_of_a_call }

    ensures two_at_once { Breaks two_at_once }
    ensures salt_of_zero { Breaks salt_of_zero }
    ensures drawn_again { Breaks drawn_again }

    ensures invented_message { Breaks invented_message }
    ensures judged_elsewhere { BreaksOneTaker judged_elsewhere }
    ensures judged_again { Breaks judged_again }
    ensures other_body { Breaks other_body }
    ensures foreign_salt { Breaks foreign_salt }
    ensures outcome_of_twenty { Breaks outcome_of_twenty }
    ensures early_forget { BreaksOneTaker early_forget }

    ensures other_request { Breaks other_request }
    ensures answered_again { Breaks answered_again }
    ensures names_another { Breaks names_another }
    ensures foreign_first_salt { Breaks foreign_first_salt }
    ensures invented_result { Breaks invented_result }
    ensures early_result { Breaks early_result }
    ensures invented_notice { Breaks invented_notice }
    ensures invented_wrong_salt { Breaks invented_wrong_salt }
    ensures foreign_new_salt { Breaks foreign_new_salt }
    ensures silent { Breaks silent }

    ensures invented_packet { Breaks invented_packet }
    ensures foreign_packet { Breaks foreign_packet }

    ensures queued_again { RunsTwice }
{}
