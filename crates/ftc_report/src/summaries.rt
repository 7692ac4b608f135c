//! What is told of a run in short.

ghost use Rattle.std.specs.Prelude.{◌≡◌, ◌++◌, OnOk, IfOk, length};
ghost use Rattle.std.specs.List.{flat_map, enumerate_from};
ghost use Rattle.ftc_serial.specs.Held.{rules_of, serial_state};
ghost use Rattle.ftc_report.specs.Contents.{contents};
ghost use Rattle.ftc_report.specs.Text.{key_count, summary_text};

use crate::counts::append_counts;
use crate::stores::append_key_count;
use ftc_base::{Bytes, NoMemory, ServerId};
use ftc_protocol::Fates;
use ftc_serial::Serial;
use std::alloc::Global;

/// Adds the count of each middlebox's keys.
fn append_key_counts(alloc: Global, serial: &Serial, out: &mut Bytes) -> Result<(), NoMemory>
    ensures { OnOk result (out.new ≡ out.old
        ++ flat_map key_count (enumerate_from 0 (contents (length (rules_of serial.now)) (serial_state serial.now)))) }
{
    for place in 0..serial.servers() {
        let server = ServerId::new(place as u8).unwrap();
        append_key_count(alloc, server, serial.store(server), out)?;
    }
    Ok(())
}

/// How many packets have each fate, and how many keys each middlebox of a serial chain has.
pub fn summary(alloc: Global, fates: &Fates, serial: &Serial) -> Result<Bytes, NoMemory>
    ensures { IfOk result (λ text. text
        ≡ summary_text fates.now (contents (length (rules_of serial.now)) (serial_state serial.now))) }
{
    let mut out = Bytes::new(alloc);
    out.append(b"ftc-make 1\n")?;
    append_counts(alloc, fates, &mut out)?;
    append_key_counts(alloc, serial, &mut out)?;
    Ok(out)
}
