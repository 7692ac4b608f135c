//! The header, and how many packets have each fate.

ghost use Rattle.std.specs.Prelude.{◌≡◌, ◌++◌, OnOk, IfOk, count_by, string_bytes};
ghost use Rattle.ftc_report.specs.Text.{is_released, is_filtered, is_lost, count_lines, head};

use ftc_base::{Bytes, NoMemory};
use ftc_protocol::{Fate, Fates};
use std::alloc::{AllocError, Global};

fn is_released(fate: &Fate) -> bool
    ensures { result ≡ is_released fate.now }
{
    match fate {
        Fate::Released => true,
        _ => false,
    }
}

fn is_filtered(fate: &Fate) -> bool
    ensures { result ≡ is_filtered fate.now }
{
    match fate {
        Fate::Filtered { .. } => true,
        _ => false,
    }
}

fn is_lost(fate: &Fate) -> bool
    ensures { result ≡ is_lost fate.now }
{
    match fate {
        Fate::Lost { .. } => true,
        _ => false,
    }
}

fn released(fates: &Fates) -> usize
    ensures { result ≡ count_by is_released fates.now }
{
    fates
        .as_slice()
        .iter()
        .filter(|fate| is_released(*fate))
        .count()
}

fn filtered(fates: &Fates) -> usize
    ensures { result ≡ count_by is_filtered fates.now }
{
    fates
        .as_slice()
        .iter()
        .filter(|fate| is_filtered(*fate))
        .count()
}

fn lost(fates: &Fates) -> usize
    ensures { result ≡ count_by is_lost fates.now }
{
    fates
        .as_slice()
        .iter()
        .filter(|fate| is_lost(*fate))
        .count()
}

/// The line of each count.
#[tactic(auto, unfolding(crate::specs::Text::count_lines))]
fn count_lines(alloc: Global, fates: &Fates) -> Result<String, AllocError>
    ensures { IfOk result (λ text. string_bytes text ≡ count_lines fates.now) }
{
    let packets = fates.len();
    let released = released(fates);
    let filtered = filtered(fates);
    let lost = lost(fates);
    format!(in alloc; "packets {packets}\nreleased {released}\nfiltered {filtered}\nlost {lost}\n")
}

/// Adds the counts.
pub fn append_counts(alloc: Global, fates: &Fates, out: &mut Bytes) -> Result<(), NoMemory>
    ensures { OnOk result (out.new ≡ out.old ++ count_lines fates.now) }
{
    let text = count_lines(alloc, fates)?;
    out.append(text.as_bytes())
}

/// Adds the header and the counts.
pub fn append_head(alloc: Global, fates: &Fates, out: &mut Bytes) -> Result<(), NoMemory>
    ensures { OnOk result (out.new ≡ out.old ++ head fates.now) }
{
    out.append(b"ftc-report 1\n")?;
    append_counts(alloc, fates, out)
}
