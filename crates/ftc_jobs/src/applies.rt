//! Whether a log of a held message may be applied.

ghost use Rattle.std.specs.Prelude.{◌≡◌, ◌<◌, ◌↔◌, ℕ, true, Some};
ghost use Rattle.ftc_journal.specs.declared.job.Job.TheVariants as job;
ghost use Rattle.ftc_protocol.specs.Setting.{Setting};
ghost use Rattle.ftc_protocol.specs.State.{ChainState};
ghost use Rattle.ftc_protocol.specs.Run.{IsRunState};
ghost use Rattle.ftc_protocol.specs.Jobs.{IsLegalJob};
ghost use Rattle.ftc_protocol.specs.Drive.{IsNoneDue};
ghost use Rattle.ftc_server.specs.declared.server.Server.{Server as AServer};
ghost use Rattle.ftc_server.specs.Replicas.{is_had};
ghost use Rattle.ftc_refinement.specs.Contents.{IsServerAt};
ghost use Rattle.ftc_jobs.specs.Applies.{had_if_smaller, smaller_had, writes_some, may_apply_now};
ghost use Rattle.ftc_jobs.specs.Rest.{IsResting};

use crate::places::server_at;
use ftc_base::{PacketNo, ServerId};
use ftc_message::{Log, Message};
use ftc_network::Network;
use ftc_protocol::order_of_a_state;
use ftc_refinement::{held_in_turn, what_apply_wants};
use ftc_server::{Server, is_had};
use ftc_ties::{every_state_tied, what_vectors_say};
use ftc_vector::order_tests;

/// Whether a server has a log, where it is of that packet and of a smaller group.
fn had_if_smaller(server: &Server, group: ServerId, packet: PacketNo, log: &Log) -> bool
    ensures { result ≡ had_if_smaller server.now.others.items group packet log.now }
{
    !(log.origin() == packet && log.group().number() < group.number())
        || is_had(server.others.as_slice(), log)
}

/// Whether a server has the logs of a packet with smaller groups.
fn smaller_had(server: &Server, group: ServerId, packet: PacketNo, logs: &[Log]) -> bool
    ensures { result ≡ smaller_had server.now.others.items group packet logs.now }
{
    logs.iter()
        .all(|log| had_if_smaller(server, group, packet, log))
}

/// Whether the log of that group and packet writes something.
fn writes_some(message: &Message, group: ServerId, packet: PacketNo) -> bool
    ensures { result ≡ writes_some group packet message.now }
{
    match message.logs.find(packet, group) {
        Some(log) => !log.writes().is_empty(),
        None => false,
    }
}

/// Whether a server may apply the log of that group and packet of a held message.
fn may_apply_now(server: &Server, origin: PacketNo, group: ServerId, packet: PacketNo) -> bool
    ensures { result ≡ may_apply_now server.now origin group packet }
{
    match server.message(origin) {
        Some(message) => {
            writes_some(message, group, packet)
                && server.may_apply(origin, group, packet)
                && smaller_had(server, group, packet, message.logs.as_slice())
        }
        None => false,
    }
}

/// A log of a held message may be applied exactly where the server's test says so.
pub fn which_applies()
    ensures { (setting : Setting) (state : ChainState) (server origin group packet : ℕ) (old : AServer) →
        IsRunState setting state → IsNoneDue setting state → IsServerAt setting state server old →
        (may_apply_now old origin group packet ≡ true)
        ↔ IsLegalJob setting state (job.Apply server origin group packet) }
{
    order_of_a_state();
    held_in_turn();
    what_apply_wants();
    every_state_tied();
    what_vectors_say();
    order_tests();
}

/// Whether a server may apply the log of that group and packet of a message that it holds.
pub fn may_apply(
    network: &Network,
    server: ServerId,
    origin: PacketNo,
    group: ServerId,
    packet: PacketNo,
) -> bool
    ensures { (setting : Setting) (state : ChainState) → IsResting setting state network.now →
        (result ≡ true) ↔ IsLegalJob setting state (job.Apply server origin group packet) }
{
    held_in_turn();
    which_applies();
    match server_at(network, server) {
        Some(live) => may_apply_now(live, origin, group, packet),
        None => false,
    }
}
