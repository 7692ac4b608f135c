//! The text of a report.

ghost use Rattle.std.specs.Prelude.{◌≡◌, IfOk, length};
ghost use Rattle.ftc_serial.specs.Held.{rules_of, serial_state};
ghost use Rattle.ftc_report.specs.Text.{report_text};
ghost use Rattle.ftc_report.specs.Contents.{contents};

use crate::counts::append_head;
use crate::fates::append_fates;
use crate::stores::append_stores;
use crate::taps::append_taps;
use ftc_base::{Bytes, Lines, NoMemory};
use ftc_protocol::Fates;
use ftc_serial::Serial;
use std::alloc::Global;

/// The text of a report over these fates, the stores of a serial chain, and the lines of the taps.
pub fn print(alloc: Global, fates: &Fates, serial: &Serial, taps: &Lines) -> Result<Bytes, NoMemory>
    ensures { IfOk result (λ text. text
        ≡ report_text fates.now (contents (length (rules_of serial.now)) (serial_state serial.now)) taps.now) }
{
    let mut out = Bytes::new(alloc);
    append_head(alloc, fates, &mut out)?;
    append_fates(alloc, fates, &mut out)?;
    append_stores(alloc, serial, &mut out)?;
    append_taps(taps, &mut out)?;
    Ok(out)
}
