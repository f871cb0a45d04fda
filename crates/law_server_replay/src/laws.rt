//! Laws of events that are played once more, each the contract of a function that does nothing.

ghost use Rattle.std.specs.Prelude.{◌≡◌, ℕ, All, List, false, []};
ghost use Rattle.auth_keys.specs.declared.ring.RingKey.{RingKey};
ghost use Rattle.draws.specs.Draws.{draw_after};
ghost use Rattle.regs_service.specs.Served.{Step};
ghost use Rattle.server_dispatch.specs.Rings.{AreOf};
ghost use Rattle.server_rules.specs.Event.{Envelope, Setting};
ghost use Rattle.server_rules.specs.Server.{Name, Server};
ghost use Rattle.server_rules.specs.Answer.{after_attach, after_packet, after_tick, after_work, is_spent};
ghost use Rattle.server_session.specs.Says.{Keys, setting_of};
ghost use Rattle.law_server.specs.Order.{AreOrdered};
ghost use Rattle.law_server_replay.specs.Quiet.{quiet};

use draws::Draw;

/// The draw after an event is the one before it, some words later.
pub fn events_draw_words<D: Draw, V>()
    ensures packet { (setting : Setting D) (envelope : Envelope) (server : Server) (draw : D)
        → (words : ℕ) × ((after_packet setting envelope server draw).draw ≡ draw_after setting.step words draw) }
    ensures tick { (setting : Setting D) (server : Server) (draw : D)
        → (words : ℕ) × ((after_tick setting server draw).draw ≡ draw_after setting.step words draw) }
    ensures attach { (setting : Setting D) (name : Name) (server : Server) (draw : D)
        → (words : ℕ) × ((after_attach setting name server draw).draw ≡ draw_after setting.step words draw) }
    ensures work { (setting : Setting D) (place : ℕ) (serve : Step V) (service : V) (server : Server) (draw : D)
        → (words : ℕ) × ((after_work setting place serve service server draw).0.draw ≡ draw_after setting.step words draw) }
{
    law_server::lives::sessions_draw_salts::<D>();
}

/// A tick and an attach of a server in order, each of whose sessions has room for an event, change nothing but the moment and
/// draw nothing where they give neither a packet nor an entry.
pub fn quiet_events_change_nothing<D: Draw>()
    ensures tick { (setting : Setting D) (server : Server) (draw : D) → AreOrdered server.sessions server.jobs
        → All (λ session. is_spent session ≡ false) server.sessions → (after_tick setting server draw).entries ≡ []
        → after_tick setting server draw ≡ quiet setting.now server draw }
    ensures attach { (setting : Setting D) (name : Name) (server : Server) (draw : D) → AreOrdered server.sessions server.jobs
        → All (λ session. is_spent session ≡ false) server.sessions → (after_attach setting name server draw).packets ≡ []
        → after_attach setting name server draw ≡ quiet setting.now server draw }
{
    law_server::laws::new_sessions_say_so::<D>();
    law_server::laws::sessions_speak::<D>();
    law_server::laws::sessions_speak_for_themselves::<D>();
    server_core::tick_laws::quiet_ticks_say_nothing::<D>();
}

/// A tick, an attach and a run ask nothing of the ring's keys.
pub fn keys_are_asked_by_packets_alone<D: Draw, V>()
    ensures tick { (now : ℕ) (step : D → ℕ × D) (keys other : Keys) (server : Server) (draw : D)
        → after_tick (setting_of now step keys) server draw ≡ after_tick (setting_of now step other) server draw }
    ensures attach { (now : ℕ) (step : D → ℕ × D) (keys other : Keys) (name : Name) (server : Server) (draw : D)
        → after_attach (setting_of now step keys) name server draw ≡ after_attach (setting_of now step other) name server draw }
    ensures work { (now : ℕ) (step : D → ℕ × D) (keys other : Keys) (place : ℕ) (serve : Step V) (service : V) (server : Server) (draw : D)
        → after_work (setting_of now step keys) place serve service server draw ≡ after_work (setting_of now step other) place serve service server draw }
{}

/// What a ring says of keys and bindings is one thing.
pub fn rings_say_one_thing()
    ensures { (ring : List RingKey) (keys other : Keys) → AreOf ring keys → AreOf ring other → keys ≡ other }
{}

/// What an event leaves: each session has room for another event.
pub fn events_leave_room<D: Draw, V>()
    ensures packet { (setting : Setting D) (envelope : Envelope) (server : Server) (draw : D)
        → All (λ session. is_spent session ≡ false) (after_packet setting envelope server draw).server.sessions }
    ensures tick { (setting : Setting D) (server : Server) (draw : D)
        → All (λ session. is_spent session ≡ false) (after_tick setting server draw).server.sessions }
    ensures attach { (setting : Setting D) (name : Name) (server : Server) (draw : D)
        → All (λ session. is_spent session ≡ false) (after_attach setting name server draw).server.sessions }
    ensures work { (setting : Setting D) (place : ℕ) (serve : Step V) (service : V) (server : Server) (draw : D)
        → All (λ session. is_spent session ≡ false) (after_work setting place serve service server draw).0.server.sessions }
{}
