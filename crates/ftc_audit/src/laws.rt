//! What translators and balancers do over a whole run.

ghost use Rattle.std.specs.Prelude.{◌≡◌, ◌↔◌, ℕ, List, Some, slice_get};
ghost use Rattle.std.specs.List.{AllByRecursion};
ghost use Rattle.ftc_packet.specs.Layout.{AreBytes};
ghost use Rattle.ftc_mbox.specs.Bounds.{IsRule};
ghost use Rattle.ftc_nat.specs.declared.rule.NatRule.{NatRule};
ghost use Rattle.ftc_balance.specs.declared.rule.BalanceRule.{BalanceRule};
ghost use Rattle.ftc_mbox.specs.declared.rule.Rule.{Rule};
ghost use Rattle.ftc_mbox.specs.declared.rule.Rule.TheVariants.{Nat, Balance};
ghost use Rattle.ftc_serial.specs.declared.step.Step.{Step};
ghost use Rattle.ftc_serial.specs.Serial.{serial_opening};
ghost use Rattle.ftc_audit.specs.declared.line.PortLine.{PortLine as APortLine};
ghost use Rattle.ftc_audit.specs.declared.line.ClientLine.{ClientLine as AClientLine};
ghost use Rattle.ftc_audit.specs.Visits.{Seen, Gave, AreOfBytes, visits};
ghost use Rattle.ftc_audit.specs.Ports.{port_line_of, SameInside};
ghost use Rattle.ftc_audit.specs.Table.{IsPortTable};
ghost use Rattle.ftc_audit.specs.Backends.{client_line_of, SameClient};

/// At one translator, over a whole run and whatever else goes through it, inside endpoints are equal
/// exactly where their outside ports are.
pub fn ports_are_apart()
    ensures { (rules : List Rule) (packets : List (List ℕ)) (steps : List Step) (server : ℕ) (rule : NatRule)
        (one other : APortLine) → AllByRecursion IsRule rules → AllByRecursion AreBytes packets →
        slice_get rules server ≡ Some (Nat rule) →
        Gave (port_line_of rule) server (visits rules (serial_opening packets) steps) one →
        Gave (port_line_of rule) server (visits rules (serial_opening packets) steps) other →
        SameInside one other ↔ (one.outside ≡ other.outside) }
{}

/// At one balancer a client endpoint has one backend for the whole run.
pub fn backends_stay()
    ensures { (rules : List Rule) (packets : List (List ℕ)) (steps : List Step) (server : ℕ) (rule : BalanceRule)
        (one other : AClientLine) → AllByRecursion IsRule rules → slice_get rules server ≡ Some (Balance rule) →
        Gave (client_line_of rule) server (visits rules (serial_opening packets) steps) one →
        Gave (client_line_of rule) server (visits rules (serial_opening packets) steps) other →
        SameClient one other → one.backend ≡ other.backend }
{}

/// A run has at most one port table of a translator.
pub fn one_table()
    ensures { (rule : NatRule) (server : ℕ) (run : List Seen) (one other : List APortLine) →
        IsPortTable rule server run one → IsPortTable rule server run other → one ≡ other }
{}

/// Packets of bytes stay packets of bytes, whatever visits they are of.
pub fn packets_stay_bytes()
    ensures { (rules : List Rule) (packets : List (List ℕ)) (steps : List Step) → AllByRecursion IsRule rules →
        AllByRecursion AreBytes packets → AreOfBytes (visits rules (serial_opening packets) steps) }
{}
