//! The lines of a firewall.

ghost use Rattle.std.specs.Prelude.{◌≡◌, ◌⊎◌, Some, None, IfOk};
ghost use Rattle.ftc_base.specs.Text.{words_of};
ghost use Rattle.ftc_firewall.specs.Bounds.{IsFireLine};
ghost use Rattle.ftc_conf.specs.Forms.{protocol_of, fire_line_of};

use crate::fault::ChainCause;
use crate::ports::ports_word;
use crate::values::net_word;
use crate::words::{is_same, next_word};
use ftc_base::split_word;
use ftc_firewall::FireLine;

/// TCP has the number 6 and UDP the number 17 (RFC 790). Both of them are None.
fn protocol(word: &[u8]) -> Result<Option<u8>, ChainCause>
    ensures value { result ≡ protocol_of word.now }
    ensures known { IfOk result (λ protocol. (protocol ≡ None) ⊎ (protocol ≡ Some 6) ⊎ (protocol ≡ Some 17)) }
{
    if is_same(word, b"tcp") {
        Ok(Some(6))
    } else if is_same(word, b"udp") {
        Ok(Some(17))
    } else if is_same(word, b"any") {
        Ok(None)
    } else {
        Err(ChainCause::UnknownWord)
    }
}

/// The words `PROTOCOL NET NET PORTS` behind `allow` or `deny`. The nets are those of the source and of
/// the destination, and the ports are the destination's.
pub fn fire_line(allow: bool, line: &[u8]) -> Result<FireLine, ChainCause>
    ensures value { result ≡ fire_line_of allow (words_of line.now) }
    ensures bounds { IfOk result IsFireLine }
{
    let (protocol_word, rest) = next_word(line)?;
    let (source_word, rest) = next_word(rest)?;
    let (destination_word, rest) = next_word(rest)?;
    let (ports, rest) = next_word(rest)?;
    if let Some(_) = split_word(rest) {
        return Err(ChainCause::WordCount);
    }
    let protocol = protocol(protocol_word)?;
    let source = net_word(source_word)?;
    let destination = net_word(destination_word)?;
    let range = ports_word(ports)?;
    Ok(FireLine {
        allow,
        protocol,
        source,
        destination,
        low: range.first,
        high: range.last,
    })
}
