//! How long packets are.

ghost use Rattle.std.specs.Prelude.{◌≡◌, ℕ, List, length, Some};
ghost use Rattle.ftc_protocol.specs.Setting.{Setting, packet_at};
ghost use Rattle.ftc_protocol.specs.State.{ChainState, Message as AMessage};
ghost use Rattle.ftc_protocol.specs.Run.{IsRunState};

/// The packet of a message is as long as it came.
pub fn what_lines_up()
    ensures { (setting : Setting) (state : ChainState) (origin : ℕ) (message : AMessage) (bytes : List ℕ) →
        IsRunState setting state → state.message origin ≡ Some message → message.packet ≡ Some bytes →
        length bytes ≡ length (packet_at setting origin) }
{}
