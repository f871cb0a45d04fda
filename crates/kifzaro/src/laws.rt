//! Laws for programs that ask a service of their own.

ghost use Rattle.std.specs.Prelude.{◌≡◌, ℕ, List, Some};
ghost use Rattle.regs_service.specs.Served.{Step};
ghost use Rattle.server_core.specs.Desks.{request_at};
ghost use Rattle.server_rules.specs.Answer.{after_work};
ghost use Rattle.server_rules.specs.Event.{Setting};
ghost use Rattle.server_rules.specs.Server.{Server};
ghost use Rattle.kifzaro.specs.Servers.{after_reply};

use draws::Draw;

/// What a server is after the reply to its first ready request is what it is after the run of that request, by any service
/// that gives this reply to it; and that service is then in the state after the request.
pub fn replies_are_runs<D: Draw, V>()
    ensures run { (setting : Setting D) (request reply : List ℕ) (serve : Step V) (service : V) (server : Server) (draw : D)
        → request_at 0 server.jobs ≡ Some request → (serve service request).0 ≡ reply
        → after_reply setting reply server draw ≡ (after_work setting 0 serve service server draw).0 }
    ensures state { (setting : Setting D) (request : List ℕ) (serve : Step V) (service : V) (server : Server) (draw : D)
        → request_at 0 server.jobs ≡ Some request → (after_work setting 0 serve service server draw).1 ≡ (serve service request).1 }
{}
