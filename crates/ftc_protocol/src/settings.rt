//! What is so of the chain, the packets and the script that a run is given.

ghost use Rattle.std.specs.Prelude.{◌≡◌, ◌<◌, ◌≤◌, ◌^◌, ℕ, List, length};
ghost use Rattle.ftc_mbox.specs.Chain.{Chain as AChain, IsChain};
ghost use Rattle.ftc_script.specs.Script.{ScriptShape, IsScript};
ghost use Rattle.ftc_base.specs.declared.limits.TheConstants.{MOST_RECORDS};
ghost use Rattle.ftc_protocol.specs.Measure.{most_messages};
ghost use Rattle.ftc_protocol.specs.Setting.{setting_of, IsSetting};

/// An accepted script for a chain and for its packets makes a setting of which the other laws speak. The numbers of
/// all messages, those of packets and those behind them, fit 32 bits.
pub fn accepted()
    ensures setting { (chain : AChain) (packets : List (List ℕ)) (script : ScriptShape) →
        IsChain chain → IsScript script →
        script.ring ≡ record { servers = length chain.rules; failures = chain.failures } →
        script.packets ≡ length packets →
        IsSetting (setting_of chain packets script) }
    ensures few { (chain : AChain) (packets : List (List ℕ)) (script : ScriptShape) → IsScript script →
        length packets ≤ MOST_RECORDS → most_messages (setting_of chain packets script) < 2 ^ 32 }
{}
