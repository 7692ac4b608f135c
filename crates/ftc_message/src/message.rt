//! What one server sends to the next.

ghost use Rattle.std.specs.Cmp.{partial_equiv_from_equiv};
ghost use Rattle.ftc_message.specs.Same.{same_message};
ghost use Rattle.ftc_message.specs.SameLaws.{message_equivalence};

use crate::logs::Logs;
use crate::need::Needs;
use ftc_base::{Bytes, PacketNo};
use ftc_vector::Commits;

/// A message on its way round the chain.
#[derive(Debug, Drop)]
pub struct Message {
    /// The packet that it was made for.
    pub origin: PacketNo,
    /// The packet, as the middleboxes so far left it. None where it was filtered or has left the chain.
    pub packet: Option<Bytes>,
    /// What members of a group still have to get.
    pub logs: Logs,
    /// What tails have to be known to have before the packet may be released.
    pub needs: Needs,
    /// What the sender knew of the tails.
    pub commits: Commits,
}

impl PartialEq for Message {
    ghost eq = { same_message };

    ghost laws = { partial_equiv_from_equiv message_equivalence };

    fn eq(&self, other: &Message) -> bool {
        self.origin == other.origin
            && self.packet == other.packet
            && self.logs == other.logs
            && self.needs == other.needs
            && self.commits == other.commits
    }
}

impl Eq for Message {
    ghost laws = { message_equivalence };
}
