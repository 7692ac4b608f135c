//! The frame of a message.

ghost use Rattle.std.specs.Prelude.{◌≡◌, ◌≤◌, ◌++◌, length, OnOk, IfOk, IfSome};
ghost use Rattle.ftc_message.specs.Spelling.{kind, packet_bytes, spelling};
ghost use Rattle.ftc_message.specs.WellFormed.{IsTyped, IsWellFormed};

use crate::bytes::append_word;
use crate::commits_bytes::add_commits;
use crate::logs_bytes::add_logs;
use crate::message::Message;
use crate::need_bytes::add_needs;
use ftc_base::limits::MOST_CAPTURED;
use ftc_base::{Bytes, NoMemory};
use std::alloc::Global;

/// What a frame begins with.
pub(crate) const MAGIC: [u8; 4] = *b"FTC3";

/// So many bytes are taken at first. A frame of a short packet and few logs fits, and a longer one takes more.
const USUAL_FRAME: usize = 1_000;

/// 0 with a packet, 1 without.
fn kind(packet: &Option<Bytes>) -> u8
    ensures { result ≡ kind packet.now }
{
    match packet {
        None => 1,
        Some(_) => 0,
    }
}

/// Adds the packet's length and its bytes.
fn append_packet(packet: &Option<Bytes>, out: &mut Bytes) -> Result<(), NoMemory>
    requires { IfSome packet.now (λ packet. length packet ≤ MOST_CAPTURED) }
    ensures { OnOk result (out.new ≡ out.old ++ packet_bytes packet.now) }
{
    match packet {
        None => append_word(0, out),
        Some(packet) => {
            append_word(packet.len() as u32, out)?;
            out.append(packet.as_slice())
        }
    }
}

/// Adds the frame that spells the message. Where memory is refused, some of its bytes may have been added.
#[tactic(auto, unfolding(crate::specs::Spelling::spelling))]
fn add_message(message: &Message, out: &mut Bytes) -> Result<(), NoMemory>
    requires { IsWellFormed message.now }
    ensures spelled { OnOk result (out.new ≡ out.old ++ spelling message.now) }
    ensures typed { OnOk result (IsTyped message.now) }
{
    out.append(&MAGIC)?;
    out.append(&[kind(&message.packet)])?;
    append_word(message.origin, out)?;
    append_packet(&message.packet, out)?;
    add_logs(&message.logs, out)?;
    add_needs(&message.needs, out)?;
    add_commits(&message.commits, out)
}

/// The frame that spells the message.
pub fn encode(alloc: Global, message: &Message) -> Result<Bytes, NoMemory>
    requires { IsWellFormed message.now }
    ensures spelled { IfOk result (λ frame. frame ≡ spelling message.now) }
    // What the types of the message's fields hold.
    ensures typed { OnOk result (IsTyped message.now) }
{
    let mut out = Bytes::from_vec(Vec::with_capacity(alloc, USUAL_FRAME)?);
    add_message(message, &mut out)?;
    Ok(out)
}
