//! The text of a port table.

ghost use Rattle.std.specs.Prelude.{◌≡◌, ◌++◌, IfOk, OnOk, string_bytes};
ghost use Rattle.std.specs.List.{flat_map};
ghost use Rattle.ftc_audit.specs.Text.{protocol_word, line_text, ports_text};

use crate::line::{PortLine, PortLines};
use ftc_base::{Bytes, NoMemory};
use std::alloc::{AllocError, Global};

/// The number of TCP.
const TCP: u8 = 6;

fn protocol_word(protocol: u8) -> &'static str
    ensures { result.now ≡ protocol_word protocol }
{
    if protocol == TCP { "tcp" } else { "udp" }
}

/// The line of an outside port.
fn line_text(alloc: Global, line: &PortLine) -> Result<String, AllocError>
    ensures { IfOk result (λ text. string_bytes text ≡ line_text line.now) }
{
    let outside = line.outside;
    let protocol = protocol_word(line.protocol);
    let [a, b, c, d] = line.address.to_be_bytes();
    let port = line.port;
    format!(in alloc; "port {outside} {protocol} {a}.{b}.{c}.{d}:{port}\n")
}

/// Adds the line of each outside port.
fn append_lines(alloc: Global, lines: &[PortLine], out: &mut Bytes) -> Result<(), NoMemory>
    ensures { OnOk result (out.new ≡ out.old ++ flat_map line_text lines.now) }
{
    for line in lines {
        let text = line_text(alloc, line)?;
        out.append(text.as_bytes())?;
    }
    Ok(())
}

/// The text of a port table: the header, how many lines there are, and the lines.
pub fn ports_text(alloc: Global, lines: &PortLines) -> Result<Bytes, NoMemory>
    ensures { IfOk result (λ text. text ≡ ports_text lines.now) }
{
    let count = lines.len();
    let head = format!(in alloc; "ftc-ports 1\nports {count}\n")?;
    let mut out = Bytes::new(alloc);
    out.append(head.as_bytes())?;
    append_lines(alloc, lines.as_slice(), &mut out)?;
    Ok(out)
}
