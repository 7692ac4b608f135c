//! Which job is the work of a held message.

ghost use Rattle.std.specs.Prelude.{◌≡◌, ◌⊎◌, ℕ, false, true, Some, None};
ghost use Rattle.ftc_journal.specs.declared.job.Job.TheVariants as job;
ghost use Rattle.ftc_message.specs.Logged.{logs_rise};
ghost use Rattle.ftc_protocol.specs.Setting.{Setting};
ghost use Rattle.ftc_protocol.specs.State.{ChainState};
ghost use Rattle.ftc_protocol.specs.Legal.{is_sent};
ghost use Rattle.ftc_protocol.specs.Run.{IsRunState};
ghost use Rattle.ftc_protocol.specs.Jobs.{IsWork, IsNoWork};
ghost use Rattle.ftc_protocol.specs.Drive.{IsNoneDue};
ghost use Rattle.ftc_server.specs.declared.held.HeldMessage.{HeldMessage as AHeldMessage};
ghost use Rattle.ftc_server.specs.declared.server.Server.{Server};
ghost use Rattle.ftc_server.specs.declared.work.Work.TheVariants.{Apply, Visit, Send, Carry};
ghost use Rattle.ftc_server.specs.Holding.{found};
ghost use Rattle.ftc_server.specs.Looks.{work_in};
ghost use Rattle.ftc_refinement.specs.Contents.{IsServerAt};

use crate::ready::what_is_ready;
use crate::working::what_work_says;
use ftc_protocol::{order_of_a_state, work};
use ftc_ties::{every_state_tied, what_vectors_say};
use ftc_vector::order_tests;

/// What a server says is to be done with a held message is the work of that message, where no release is due: an apply
/// is the legal one with the smallest packet and group, and what is to be sent is passed on or lost as the script has
/// it. Where nothing is to be done, none of the message's jobs is legal. Only server 0 holds what is to be carried.
pub fn what_work_is()
    ensures apply { (setting : Setting) (state : ChainState) (server origin group packet : ℕ) (held : AHeldMessage)
        (old : Server) → IsRunState setting state → IsNoneDue setting state → IsServerAt setting state server old →
        found origin old.held.items ≡ Some held → logs_rise None held.message.logs ≡ true →
        work_in old origin ≡ Some (Apply group packet) →
        IsWork setting state server origin (job.Apply server origin group packet) }
    ensures visit { (setting : Setting) (state : ChainState) (server origin : ℕ) (old : Server) →
        IsRunState setting state → IsNoneDue setting state → IsServerAt setting state server old →
        work_in old origin ≡ Some Visit → IsWork setting state server origin (job.Visit server origin) }
    ensures pass { (setting : Setting) (state : ChainState) (server origin : ℕ) (old : Server) →
        IsRunState setting state → IsNoneDue setting state → IsServerAt setting state server old →
        work_in old origin ≡ Some Send →
        ((setting.loses server origin ≡ false) ⊎ (is_sent setting server ≡ false)) →
        IsWork setting state server origin (job.Pass server origin) }
    ensures lose { (setting : Setting) (state : ChainState) (server origin : ℕ) (old : Server) →
        IsRunState setting state → IsNoneDue setting state → IsServerAt setting state server old →
        work_in old origin ≡ Some Send → is_sent setting server ≡ true → setting.loses server origin ≡ true →
        IsWork setting state server origin (job.Lose server origin) }
    ensures carry { (setting : Setting) (state : ChainState) (server origin : ℕ) (old : Server) →
        IsRunState setting state → IsNoneDue setting state → IsServerAt setting state server old →
        work_in old origin ≡ Some Carry → IsWork setting state server origin (job.Carry origin) }
    ensures ring { (setting : Setting) (state : ChainState) (server origin : ℕ) (old : Server) →
        IsRunState setting state → IsServerAt setting state server old → work_in old origin ≡ Some Carry → server ≡ 0 }
    ensures none { (setting : Setting) (state : ChainState) (server origin : ℕ) (held : AHeldMessage) (old : Server) →
        IsRunState setting state → IsNoneDue setting state → IsServerAt setting state server old →
        found origin old.held.items ≡ Some held → logs_rise None held.message.logs ≡ true →
        work_in old origin ≡ None → IsNoWork setting state server origin }
{
    what_is_ready();
    what_work_says();
    order_of_a_state();
    work();
    every_state_tied();
    what_vectors_say();
    order_tests();
}
