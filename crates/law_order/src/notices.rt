//! Laws of notice 19, each the contract of a function that does nothing.

ghost use Rattle.std.specs.Prelude.{◌≡◌, ℕ, List, []};
ghost use Rattle.std.specs.List.{AllByRecursion};
ghost use Rattle.regs_service.specs.Served.{Step};
ghost use Rattle.server_rules.specs.Event.{Setting};
ghost use Rattle.server_rules.specs.Events.{Course, Event, after_event, course_of};
ghost use Rattle.law_order.specs.Apart.{AreQuiet, AreSessionsOf, IsEventOf, Kinds};

use draws::Draw;

/// Take for each name which numbers are a container's. Where the packets of a list of events, each message as it may be judged,
/// are as is told of their numbers, no packet that the server makes has notice 19: a container never has the number of an
/// accepted message that is none.
pub fn containers_are_told_apart<D: Draw, V>()
    ensures event { (setting : Setting D) (serve : Step V) (service : V) (kinds : Kinds) (course : Course D V) (event : Event)
        → IsEventOf kinds event → AreSessionsOf kinds course.server.sessions → AreQuiet course.packets
        → AreSessionsOf kinds (after_event setting serve service course event).server.sessions × AreQuiet (after_event setting serve service course event).packets }
    ensures all { (setting : Setting D) (serve : Step V) (service : V) (draw : D) (kinds : Kinds) (events : List Event)
        → AllByRecursion (IsEventOf kinds) events → AreQuiet (course_of setting serve service draw events).packets }
{}
