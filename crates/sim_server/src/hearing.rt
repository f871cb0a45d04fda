//! Bytes that come to a server.

ghost use Rattle.std.specs.Prelude.{◌≡◌, ℕ, IfOk, OnErr};
ghost use Rattle.msg_ids.specs.Moments.{moment_of};
ghost use Rattle.server_core.specs.Server.{StandsFor};
ghost use Rattle.server_rules.specs.Server.{Server as Rules};
ghost use Rattle.world_rules.specs.Setting.{Setting};
ghost use Rattle.sim_server.specs.Hosts.{Did, heard_by};
ghost use Rattle.sim_server.specs.Settings.{IsOf, Sealing, setting_in};

use draws::Draw;
use envelope::Seal;
use msg_ids::Moment;
use octets::Memory;
use regs_service::Service;
use server_core::{Effects, Reply, Server};
use std::alloc::Global;

/// These bytes come to a server at this moment, whatever they open to. So they do whatever the server's service is.
///
/// # Errors
///
/// `Memory`, and then the server is as it was.
pub(crate) fn hears<S: Seal, V: Service, D: Draw>(
    server: &mut Server<S>,
    alloc: Global,
    now: Moment,
    bytes: &[u8],
    draw: &mut D,
) -> Result<Effects, Memory>
    ensures given { (sealing : Sealing) (rules : Rules) (service : V) (clock : ℕ) → let setting : Setting D V = setting_in D.step V.step V.fresh_state sealing in
        IsOf S.lock (S.keys server.old.seal) setting → now ≡ moment_of clock → StandsFor server.old rules
        → IfOk result (λ effects. Did S.lock (S.keys server.old.seal) server.new draw.new effects (heard_by setting rules service draw.old clock bytes.now)) }
    ensures unchanged_on_memory { OnErr result (server.new ≡ server.old) }
    ensures same_seal { server.new.seal ≡ server.old.seal }
{
    let Reply {
        heard: _,
        out,
        entries,
    } = server.on_packet(alloc, now, bytes, draw)?;
    Ok(Effects { out, entries })
}
