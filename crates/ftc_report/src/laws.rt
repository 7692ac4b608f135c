//! What holds of the packets that come out.

ghost use Rattle.std.specs.Prelude.{◌≡◌, List, Some};
ghost use Rattle.ftc_mbox.specs.declared.rule.Rule.{Rule as ARule};
ghost use Rattle.ftc_serial.specs.declared.step.Step.{Step as AStep};
ghost use Rattle.ftc_serial.specs.Packets.{bytes_of_packets};
ghost use Rattle.ftc_serial.specs.Serial.{State as SerialState, serial_opening, serial_run};
ghost use Rattle.ftc_report.specs.Output.{AreWritable};

use ftc_pcap::Packets;

/// What a serial run released can be written: each is a packet of the capture, and no middlebox made it longer
/// than a record may be.
pub fn released_fit(packets: &Packets)
    ensures { (rules : List ARule) (steps : List AStep) (end : SerialState) →
        serial_run rules (serial_opening (bytes_of_packets packets.now)) steps ≡ Some end →
        AreWritable packets.now end.released }
{
    let _ = packets.len();
}
