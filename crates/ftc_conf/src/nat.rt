//! The line of a translator.

ghost use Rattle.std.specs.Prelude.{◌≡◌, IfOk};
ghost use Rattle.ftc_base.specs.Text.{words_of};
ghost use Rattle.ftc_nat.specs.Bounds.{IsNatRule};
ghost use Rattle.ftc_conf.specs.Forms.{nat_of};

use crate::fault::ChainCause;
use crate::ports::dashed_ports;
use crate::values::{address_word, net_word};
use crate::words::{fixed, next_word};
use ftc_base::split_word;
use ftc_nat::NatRule;

/// The words `inside NET outside ADDRESS ports A-B`.
pub fn nat(line: &[u8]) -> Result<NatRule, ChainCause>
    ensures value { result ≡ nat_of (words_of line.now) }
    ensures bounds { IfOk result IsNatRule }
{
    let (inside_word, rest) = next_word(line)?;
    let (net, rest) = next_word(rest)?;
    let (outside_word, rest) = next_word(rest)?;
    let (address, rest) = next_word(rest)?;
    let (ports_word, rest) = next_word(rest)?;
    let (ports, rest) = next_word(rest)?;
    if let Some(_) = split_word(rest) {
        return Err(ChainCause::WordCount);
    }
    fixed(b"inside", inside_word)?;
    let inside = net_word(net)?;
    fixed(b"outside", outside_word)?;
    let outside = address_word(address)?;
    if inside.contains(outside) {
        return Err(ChainCause::BadRange);
    }
    fixed(b"ports", ports_word)?;
    let range = dashed_ports(1, ports)?;
    Ok(NatRule {
        inside,
        outside,
        first: range.first,
        last: range.last,
    })
}
