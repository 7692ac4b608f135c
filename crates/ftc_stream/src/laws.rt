//! What the words of the contracts mean.

ghost use Rattle.std.specs.Prelude.{◌≡◌, ◌<◌, ◌≤◌, List, length, true};
ghost use Rattle.std.specs.List.{AllByRecursion, AllZip};
ghost use Rattle.ftc_base.specs.declared.limits.TheConstants.{MOST_CAPTURED};
ghost use Rattle.ftc_base.specs.declared.released.Released.{Released};
ghost use Rattle.ftc_outside.specs.Tap.{Face, WasTold};
ghost use Rattle.ftc_pcap.specs.declared.capture.Capture.{Capture};
ghost use Rattle.ftc_stream.specs.Records.{writable};
ghost use Rattle.ftc_stream.specs.Taps.{AreLeft};

/// Items whose numbers are the capture's and that aren't too long have a record, each of them.
pub fn none_is_passed_over()
    ensures { (capture : Capture) (items : List Released) →
        AllByRecursion (λ item. (item.packet < length capture.packets) × (length item.bytes ≤ MOST_CAPTURED)) items →
        writable capture items ≡ items }
{}

/// Where all taps are constant, all are still there, and each was told all records.
pub fn constant_taps_stay()
    ensures { (records : List Released) (old new : List Face) →
        AllByRecursion (λ tap. tap.constant ≡ true) old →
        AreLeft records old new → AllZip (WasTold records) old new }
{}
