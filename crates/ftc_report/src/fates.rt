//! The line of each packet.

ghost use Rattle.std.specs.Prelude.{◌≡◌, ◌++◌, OnOk, IfOk, string_bytes};
ghost use Rattle.std.specs.List.{flat_map, enumerate_from};
ghost use Rattle.ftc_report.specs.Text.{fate_line};

use ftc_base::{Bytes, NoMemory};
use ftc_protocol::{Fate, Fates};
use std::alloc::{AllocError, Global};

/// The line of a packet.
#[tactic(auto, unfolding(crate::specs::Text::fate_line))]
fn fate_line(alloc: Global, packet: usize, fate: &Fate) -> Result<String, AllocError>
    ensures { IfOk result (λ line. string_bytes line ≡ fate_line (packet, fate.now)) }
{
    match fate {
        Fate::Released => format!(in alloc; "fate {packet} released\n"),
        Fate::Filtered { server } => {
            let server = server.number();
            format!(in alloc; "fate {packet} filtered {server}\n")
        }
        Fate::Lost { event } => format!(in alloc; "fate {packet} lost {event}\n"),
        Fate::Inside => format!(in alloc; "fate {packet} inside\n"),
    }
}

/// Adds the line of each packet.
pub fn append_fates(alloc: Global, fates: &Fates, out: &mut Bytes) -> Result<(), NoMemory>
    ensures { OnOk result (out.new ≡ out.old ++ flat_map fate_line (enumerate_from 0 fates.now)) }
{
    for (packet, fate) in fates.as_slice().iter().enumerate() {
        let line = fate_line(alloc, packet, fate)?;
        out.append(line.as_bytes())?;
    }
    Ok(())
}
