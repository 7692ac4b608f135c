//! A frame that was read beforehand.

ghost use Rattle.std.specs.Prelude.{◌≡◌, ◌↔◌, true, Ok, Err, IfOk};
ghost use Rattle.ftc_base.specs.Refused.{IfBad};
ghost use Rattle.ftc_message.specs.Reading.{message_of};
ghost use Rattle.ftc_message.specs.Spelling.{spelling};

use crate::decoding::decode;
use crate::fault::FrameFault;
use crate::message::Message;
use ftc_base::{Bytes, Refuse};
use std::alloc::Global;

/// A frame, and the message that it spells: what was read where nobody waits for it.
#[derive(Debug, Drop)]
pub struct Seen {
    pub frame: Bytes,
    pub message: Message,
    pub ghost read: { message_of frame ≡ Ok message },
    pub ghost spelled: { frame ≡ spelling message },
}

impl Seen {
    /// Reads a frame. It is refused exactly as by [`decode`].
    pub fn make(alloc: Global, frame: &[u8]) -> Result<Seen, Refuse<FrameFault>>
        ensures frame { IfOk result (λ seen. seen.frame ≡ frame.now) }
        ensures refused { IfBad result (λ fault. message_of frame.now ≡ Err fault) }
    {
        let message = decode(alloc, frame)?;
        let mut copy = Bytes::new(alloc);
        copy.append(frame)?;
        Ok(Seen {
            frame: copy,
            message,
        })
    }

    /// Reads a frame, which is kept as it is. It is refused exactly as by [`decode`].
    pub fn of(alloc: Global, frame: Bytes) -> Result<Seen, Refuse<FrameFault>>
        ensures frame { IfOk result (λ seen. seen.frame ≡ frame) }
        ensures refused { IfBad result (λ fault. message_of frame ≡ Err fault) }
    {
        let message = decode(alloc, frame.as_slice())?;
        Ok(Seen { frame, message })
    }

    /// Whether it is of that frame.
    pub fn is_of(&self, frame: &[u8]) -> bool
        ensures { result ≡ true ↔ (self.now.frame ≡ frame.now) }
    {
        self.frame.as_slice() == frame
    }
}
