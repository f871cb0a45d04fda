//! Laws of the order of calls, each the contract of a function that does nothing.

ghost use Rattle.std.specs.Prelude.{List, [], ◌++◌};
ghost use Rattle.std.specs.List.{AllByRecursion};
ghost use Rattle.regs_service.specs.Served.{Step};
ghost use Rattle.server_rules.specs.Event.{Entry, Setting};
ghost use Rattle.server_rules.specs.Events.{Course, Event, after_event, course_of};
ghost use Rattle.law_order.specs.After.{AreInTurn, IsEventFor, Pair, RanBehind};

use draws::Draw;

/// Take two messages of a session of which one is a call that waits for the other, and the other no binding call and no
/// request to drop an answer, wherever a packet has them. Over every list of events an entry of the call that ran stands
/// behind one of the other that ran, whose reply begins with neither `rpc_error` nor `rpc_answer_dropped_running`. So it is
/// too with entries made before, as those of an earlier start.
pub fn calls_run_in_order<D: Draw, V>()
    ensures fresh { (pair : Pair) → AreInTurn pair [] [] [] }
    ensures event { (setting : Setting D) (serve : Step V) (service : V) (pair : Pair) (past : List Entry) (course : Course D V) (event : Event)
        → IsEventFor pair event → AreInTurn pair course.server.sessions course.server.jobs (past ++ course.entries)
        → AreInTurn pair (after_event setting serve service course event).server.sessions (after_event setting serve service course event).server.jobs
        (past ++ (after_event setting serve service course event).entries) }
    ensures all { (setting : Setting D) (serve : Step V) (service : V) (draw : D) (pair : Pair) (events : List Event)
        → AllByRecursion (IsEventFor pair) events → RanBehind pair (course_of setting serve service draw events).entries }
{}
