//! The line of one event.

ghost use Rattle.std.specs.Prelude.{◌≡◌, ◌++◌, OnOk};
ghost use Rattle.std.specs.List.{flat_map};
ghost use Rattle.ftc_journal.specs.Text.{spaced, spaced_name, words_of};

use crate::event::{Event, VisitNames};
use ftc_base::{Bytes, NoMemory};
use itoa::Buffer;

/// Adds a number, with a space before it.
fn append_spaced(number: u32, out: &mut Bytes) -> Result<(), NoMemory>
    ensures { OnOk result (out.new ≡ out.old ++ spaced number) }
{
    let mut digits = Buffer::new();
    out.append(b" ")?;
    out.append(digits.format(number).as_bytes())
}

/// Adds the first word of a line, and the numbers behind it.
fn append_numbers(first: &[u8], numbers: &[u32], out: &mut Bytes) -> Result<(), NoMemory>
    ensures { OnOk result (out.new ≡ (out.old ++ first.now) ++ flat_map spaced numbers.now) }
{
    out.append(first)?;
    for number in numbers {
        append_spaced(*number, out)?;
    }
    Ok(())
}

/// Adds each visit of the list, with a space before it.
fn append_names(names: &VisitNames, out: &mut Bytes) -> Result<(), NoMemory>
    ensures { OnOk result (out.new ≡ out.old ++ flat_map spaced_name names.now) }
{
    let mut digits = Buffer::new();
    for name in names.as_slice() {
        append_spaced(u32::from(name.server.number()), out)?;
        out.append(b":")?;
        out.append(digits.format(name.packet).as_bytes())?;
    }
    Ok(())
}

/// Adds the words of an event, without a line feed.
#[tactic(auto, unfolding(crate::specs::Text::words_of))]
pub fn append_words(event: &Event, out: &mut Bytes) -> Result<(), NoMemory>
    ensures { OnOk result (out.new ≡ out.old ++ words_of event.now) }
{
    match event {
        Event::Enter { packet } => append_numbers(b"enter", &[*packet], out),
        Event::Take { link, origin } => {
            append_numbers(b"take", &[u32::from(link.number()), *origin], out)
        }
        Event::Apply {
            server,
            origin,
            group,
            packet,
        } => {
            let (server, group) = (u32::from(server.number()), u32::from(group.number()));
            append_numbers(b"apply", &[server, *origin, group, *packet], out)
        }
        Event::Visit {
            server,
            packet,
            worker,
        } => {
            let (server, worker) = (u32::from(server.number()), u32::from(worker.number()));
            append_numbers(b"visit", &[server, *packet, worker], out)
        }
        Event::Pass { server, origin } => {
            append_numbers(b"pass", &[u32::from(server.number()), *origin], out)
        }
        Event::Lose { server, origin } => {
            append_numbers(b"lose", &[u32::from(server.number()), *origin], out)
        }
        Event::Carry { origin } => append_numbers(b"carry", &[*origin], out),
        Event::Crash { server } => append_numbers(b"crash", &[u32::from(server.number())], out),
        Event::Recover { server, undone } => {
            append_numbers(b"recover", &[u32::from(server.number())], out)?;
            append_names(undone, out)
        }
        Event::Pull { link } => append_numbers(b"pull", &[u32::from(link.number())], out),
        Event::Propagate { origin } => append_numbers(b"propagate", &[*origin], out),
        Event::Release { packet } => append_numbers(b"release", &[*packet], out),
    }
}
