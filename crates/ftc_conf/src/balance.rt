//! The line of a balancer.

ghost use Rattle.std.specs.Prelude.{◌≡◌, ◌≤◌, length, IfOk};
ghost use Rattle.std.specs.List.{AllByRecursion};
ghost use Rattle.ftc_base.specs.Text.{words_of};
ghost use Rattle.ftc_base.specs.declared.limits.TheConstants.{MOST_BACKENDS};
ghost use Rattle.ftc_balance.specs.Bounds.{IsBalanceRule};
ghost use Rattle.ftc_conf.specs.Words.{IsAddress};
ghost use Rattle.ftc_conf.specs.Forms.{with_backend, backends_of, balance_of};
ghost use Rattle.ftc_base.specs.Refused.{IsReading};

use crate::fault::ChainCause;
use crate::limits::MOST_PORT;
use crate::values::{address_word, cut, number_from_to};
use crate::words::{fixed, next_word};
use ftc_balance::{Backends, BalanceRule};
use ftc_base::limits::MOST_BACKENDS;
use ftc_base::{Refuse, split_part, split_word};
use std::alloc::Global;

fn with_backend(backends: Backends, part: &[u8]) -> Result<Backends, Refuse<ChainCause>>
    requires few { length backends ≤ MOST_BACKENDS }
    requires addresses { AllByRecursion IsAddress backends }
    ensures value { IsReading result (with_backend backends part.now) }
    ensures some { IfOk result (λ more. 1 ≤ length more) }
    ensures few { IfOk result (λ more. length more ≤ MOST_BACKENDS) }
    ensures addresses { IfOk result (AllByRecursion IsAddress) }
{
    if backends.len() >= MOST_BACKENDS {
        return Err(Refuse::Bad(ChainCause::TooManyItems));
    }
    let backend = address_word(part)?;
    let mut more = backends;
    more.push(backend)?;
    Ok(more)
}

/// Addresses with commas between them.
fn backends(alloc: Global, word: &[u8]) -> Result<Backends, Refuse<ChainCause>>
    ensures value { IsReading result (backends_of word.now) }
    ensures some { IfOk result (λ found. 1 ≤ length found) }
    ensures few { IfOk result (λ found. length found ≤ MOST_BACKENDS) }
    ensures addresses { IfOk result (AllByRecursion IsAddress) }
{
    let mut found = Backends::new(alloc);
    let mut rest = word;
    while let Some((part, behind)) = split_part(rest, b',') {
        found = with_backend(found, part)?;
        rest = behind;
    }
    with_backend(found, rest)
}

/// The words `ADDRESS:PORT to ADDRESS,ADDRESS`.
pub fn balance(alloc: Global, line: &[u8]) -> Result<BalanceRule, Refuse<ChainCause>>
    ensures value { IsReading result (balance_of (words_of line.now)) }
    ensures bounds { IfOk result IsBalanceRule }
{
    let (endpoint, rest) = next_word(line)?;
    let (to_word, rest) = next_word(rest)?;
    let (list, rest) = next_word(rest)?;
    if let Some(_) = split_word(rest) {
        return Err(Refuse::Bad(ChainCause::WordCount));
    }
    let (address_part, port_part) = cut(endpoint, b':');
    let address = address_word(address_part)?;
    let port = number_from_to(0, MOST_PORT, port_part)?;
    fixed(b"to", to_word)?;
    let backends = backends(alloc, list)?;
    Ok(BalanceRule {
        address,
        port: port as u16,
        backends,
    })
}
