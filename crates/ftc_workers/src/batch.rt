//! When the writer is told to write.

/// So many packets are sent before the writer is told to write while workers have something to do. To wake a thread
/// costs as much as several packets do.
const BATCH: u32 = 1024;

/// What was sent and isn't written.
#[derive(Debug, Drop)]
pub struct Batch {
    /// How many packets were sent since the writer was told to write.
    unwritten: u32,
    /// The writer is told to write.
    is_due: bool,
}

impl Batch {
    /// Nothing was sent.
    pub fn new() -> Batch {
        Batch {
            unwritten: 0,
            is_due: false,
        }
    }

    /// The writer is to write. False where there is nothing to write.
    pub fn close(&mut self) -> bool {
        if self.unwritten == 0 {
            return false;
        }
        self.is_due = true;
        self.unwritten = 0;
        true
    }

    /// So many packets more were sent. True where so much is unwritten that the writer is to be told.
    pub fn add(&mut self, sent: u32) -> bool {
        self.unwritten = self.unwritten.saturating_add(sent);
        self.unwritten >= BATCH && self.close()
    }

    /// The writer begins to write.
    pub fn begin(&mut self) {
        self.is_due = false;
    }

    /// Whether the writer is told to write.
    pub fn is_due(&self) -> bool {
        self.is_due
    }
}
