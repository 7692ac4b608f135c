//! Messages that begin without a packet.

ghost use Rattle.std.specs.Prelude.{◌≡◌, ◌↔◌, ℕ, Some, IsNone, IfSome};
ghost use Rattle.ftc_journal.specs.declared.job.Job.TheVariants as job;
ghost use Rattle.ftc_protocol.specs.Setting.{Setting};
ghost use Rattle.ftc_protocol.specs.State.{ChainState};
ghost use Rattle.ftc_protocol.specs.Jobs.{IsLegalJob, IsInTurn, IsNoPull, AreIdle, IsNoTake, IsNoLine, IsNoEnter};
ghost use Rattle.ftc_script.specs.Script.{ScriptShape};
ghost use Rattle.ftc_network.specs.Parts.{server_in};
ghost use Rattle.ftc_jobs.specs.Rest.{IsAtRest};
ghost use Rattle.ftc_jobs.specs.Quiet.{all_by_ring, came_by_ring, has_forwarded, holds_nothing, is_clear, none_held};
ghost use Rattle.ftc_jobs.specs.Quiet.{all_clear, all_up, is_wanted, may_begin};
ghost use Rattle.ftc_jobs.specs.Beside.{IsOtherJob};

use ftc_base::PacketNo;
use ftc_journal::Job;
use ftc_link::Link;
use ftc_network::Network;
use ftc_refinement::what_propagates;
use ftc_server::Server;

/// Whether all servers are up.
fn all_up(network: &Network) -> bool
    ensures { result ≡ all_up network.now }
{
    network.servers.as_slice().iter().all(|slot| slot.is_some())
}

/// Whether each message that a server holds came by the ring link.
fn all_by_ring(server: &Server) -> bool
    ensures { result ≡ all_by_ring server.now }
{
    server.held.iter().all(|held| held.by_ring)
}

/// Whether a server is up, and each message that it holds came by the ring link.
fn came_by_ring(slot: &Option<Server>) -> bool
    ensures { result ≡ came_by_ring slot.now }
{
    match slot {
        Some(server) => all_by_ring(server),
        None => false,
    }
}

/// Whether the forwarder of a server has logs.
fn has_forwarded(slot: &Option<Server>) -> bool
    ensures { result ≡ has_forwarded slot.now }
{
    match slot {
        Some(server) => server.forwarded() > 0,
        None => false,
    }
}

/// Whether a server holds no message.
fn holds_nothing(slot: &Option<Server>) -> bool
    ensures { result ≡ holds_nothing slot.now }
{
    match slot {
        Some(server) => server.held() == 0,
        None => true,
    }
}

/// Whether a link has no message and no gap.
fn is_clear(link: &Link) -> bool
    ensures { result ≡ is_clear link.now }
{
    link.len() == 0 && !link.gap()
}

/// Whether no server holds a message.
fn none_held(network: &Network) -> bool
    ensures { result ≡ none_held network.now }
{
    network.servers.as_slice().iter().all(holds_nothing)
}

/// Whether no link has a message or a gap.
fn all_clear(network: &Network) -> bool
    ensures { result ≡ all_clear network.now }
{
    network.links.as_slice().iter().all(is_clear)
}

/// The slot of server 0.
fn first_slot(network: &Network) -> &Option<Server>
    ensures { result.now ≡ server_in network.now.servers.items 0 }
{
    let _ = network.ring.servers();
    &network.servers[0]
}

/// Whether the forwarder has logs, or nothing moves any more while a packet is withheld.
fn is_wanted(network: &Network) -> bool
    ensures { result ≡ is_wanted network.now }
{
    has_forwarded(first_slot(network))
        || (network.withheld() > 0 && none_held(network) && all_clear(network))
}

/// Whether a message may begin without a packet, where all packets have entered.
fn may_begin(network: &Network) -> bool
    ensures { result ≡ may_begin network.now }
{
    came_by_ring(first_slot(network)) && all_up(network) && is_wanted(network)
}

/// The origin of the message that may begin without a packet.
pub fn propagating(network: &Network, packets: u32) -> Option<PacketNo>
    ensures { (setting : Setting) (state : ChainState) (script : ScriptShape) →
        IsAtRest setting state script packets network.now →
        (origin : ℕ) → (result ≡ Some origin) ↔ IsLegalJob setting state (job.Propagate origin) }
{
    what_propagates();
    if network.entered == packets && may_begin(network) {
        Some(packets.saturating_add(network.propagates))
    } else {
        None
    }
}

/// The beginning of a message without a packet, where one may begin.
pub fn first_propagate(network: &Network, packets: u32) -> Option<Job>
    ensures some { IfSome result (λ job. (setting : Setting) (state : ChainState) (script : ScriptShape) →
        IsAtRest setting state script packets network.now → IsNoPull setting state → AreIdle setting state →
        IsNoTake setting state → IsNoLine setting state → IsNoEnter setting state → IsInTurn setting state job) }
    ensures other { IfSome result (λ job. (setting : Setting) (state : ChainState) (script : ScriptShape) →
        IsAtRest setting state script packets network.now → IsOtherJob setting state job) }
    ensures none { IsNone result → (setting : Setting) (state : ChainState) (script : ScriptShape) →
        IsAtRest setting state script packets network.now → (origin : ℕ) →
        IsLegalJob setting state (job.Propagate origin) → ⊥ }
{
    match propagating(network, packets) {
        Some(origin) => Some(Job::Propagate { origin }),
        None => None,
    }
}
