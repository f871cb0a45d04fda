//! Laws of a server between events, each the contract of a function that does nothing.

ghost use Rattle.std.specs.Prelude.{◌<◌, ◌≤◌, ℕ, length};
ghost use Rattle.msg_ids.specs.Moments.{latest_moment};
ghost use Rattle.regs_service.specs.Served.{Step};
ghost use Rattle.waits.specs.Jobs.{ready_count};
ghost use Rattle.server_rules.specs.Answer.{after_attach, after_loss, after_packet, after_restart, after_tick, after_work};
ghost use Rattle.server_rules.specs.Event.{Envelope, Setting};
ghost use Rattle.server_rules.specs.Server.{Name, Server, fresh_server};
ghost use Rattle.server_core.specs.Desks.{GivesFew, IsShortRunAt};
ghost use Rattle.server_core.specs.Server.{IsBetweenEvents};

use draws::{Draw, StepDraw};
use law_server::laws::servers_stay_in_order;
use law_server_bounds::laws as bounds;

/// A fresh server is in order and within its limits, and after a packet, a tick and an attach a server that was so is so.
pub fn events_keep_order<D: Draw>()
    ensures fresh { IsBetweenEvents fresh_server }
    ensures packet { (setting : Setting D) (envelope : Envelope) (server : Server) (draw : D) → setting.now ≤ latest_moment → IsBetweenEvents server
        → IsBetweenEvents (after_packet setting envelope server draw).server }
    ensures tick { (setting : Setting D) (server : Server) (draw : D) → setting.now ≤ latest_moment → IsBetweenEvents server
        → IsBetweenEvents (after_tick setting server draw).server }
    ensures attach { (setting : Setting D) (name : Name) (server : Server) (draw : D) → setting.now ≤ latest_moment → IsBetweenEvents server
        → IsBetweenEvents (after_attach setting name server draw).server }
{
    servers_stay_in_order::<D, D>();
    bounds::replies_are_few::<D, D>();
    bounds::jobs_are_few::<D, D>();
    bounds::events_give_few::<D, D>();
}

/// So is one after a run whose reply is no longer than a reply may be.
pub fn runs_keep_order<D: Draw, V>()
    ensures { (setting : Setting D) (place : ℕ) (serve : Step V) (service : V) (server : Server) (draw : D) → setting.now ≤ latest_moment
        → IsShortRunAt place serve service server → IsBetweenEvents server
        → IsBetweenEvents (after_work setting place serve service server draw).0.server }
{
    servers_stay_in_order::<D, V>();
    bounds::replies_are_few::<D, V>();
    bounds::jobs_are_few::<D, V>();
    bounds::events_give_few::<D, V>();
}

/// So is one that lost a session or that started again, and one to which nothing happened but that time went on.
pub fn losses_keep_order()
    ensures loss { (name : Name) (server : Server) → IsBetweenEvents server → IsBetweenEvents (after_loss name server) }
    ensures restart { (server : Server) → IsBetweenEvents server → IsBetweenEvents (after_restart server) }
    ensures later { (now : ℕ) (server : Server) → now ≤ latest_moment → IsBetweenEvents server → IsBetweenEvents (record server { now = now }) }
{
    servers_stay_in_order::<StepDraw, StepDraw>();
    bounds::replies_are_few::<StepDraw, StepDraw>();
    bounds::jobs_are_few::<StepDraw, StepDraw>();
    bounds::events_give_few::<StepDraw, StepDraw>();
}

/// A packet, a tick and an attach give at most 8,192 packets more than there were unfinished jobs in a server that was in
/// order, and at most as many entries.
pub fn events_give_few<D: Draw>()
    ensures packet { (setting : Setting D) (envelope : Envelope) (server : Server) (draw : D) → setting.now ≤ latest_moment → IsBetweenEvents server
        → GivesFew server (after_packet setting envelope server draw) }
    ensures tick { (setting : Setting D) (server : Server) (draw : D) → setting.now ≤ latest_moment → IsBetweenEvents server
        → GivesFew server (after_tick setting server draw) }
    ensures attach { (setting : Setting D) (name : Name) (server : Server) (draw : D) → setting.now ≤ latest_moment → IsBetweenEvents server
        → GivesFew server (after_attach setting name server draw) }
{
    servers_stay_in_order::<D, D>();
    bounds::replies_are_few::<D, D>();
    bounds::jobs_are_few::<D, D>();
    bounds::events_give_few::<D, D>();
}

/// So does a run whose reply isn't too long.
pub fn runs_give_few<D: Draw, V>()
    ensures { (setting : Setting D) (place : ℕ) (serve : Step V) (service : V) (server : Server) (draw : D) → setting.now ≤ latest_moment
        → IsShortRunAt place serve service server → IsBetweenEvents server
        → GivesFew server (after_work setting place serve service server draw).0 }
{
    servers_stay_in_order::<D, V>();
    bounds::replies_are_few::<D, V>();
    bounds::jobs_are_few::<D, V>();
    bounds::events_give_few::<D, V>();
}

/// A run leaves fewer unfinished jobs, where a ready one has its place.
pub fn runs_leave_fewer_jobs<D: Draw, V>()
    ensures { (setting : Setting D) (place : ℕ) (serve : Step V) (service : V) (server : Server) (draw : D) → place < ready_count server.jobs
        → length (after_work setting place serve service server draw).0.server.jobs < length server.jobs }
{}
