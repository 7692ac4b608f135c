//! A desk over real files. It tells no content.

ghost use Rattle.std.specs.Prelude.{◌≡◌, ◌≤◌, None, Err, OnErr};
ghost use Rattle.ftc_outside.specs.Desk.{Rose};

use crate::desk::{Desk, DeskError};
use ftc_base::Bytes;
use std::alloc::Global;
use std::fs::OpenOptions;
use std::io::{self, Read, Write};
use std::rt::Files;

/// The greatest file that is fetched, in bytes.
const MOST_FETCHED: usize = 1_073_741_824;

/// How much is read at once.
const PIECE: usize = 65_536;

/// Files of the system, by their paths. It tells no content: nothing is proved of what a real file
/// holds.
#[derive(Drop)]
pub struct FileDesk<R: Files + Print + Drop> {
    rt: R,
    faults: u64,
}

/// All that the file has, or None where it can't be read or has too much.
fn read_all<F: Read>(alloc: Global, file: &mut F) -> Result<Option<Bytes>, DeskError>
    ensures memory { OnErr result (result ≡ Err DeskError.NoMemory) }
{
    let mut bytes = Bytes::new(alloc);
    let mut buffer = [0u8; PIECE];
    for _ in 0..u64::MAX {
        let Ok(count) = file.read(&mut buffer) else {
            return Ok(None);
        };
        if count == 0 {
            return Ok(Some(bytes));
        }
        bytes.append(&buffer[..count])?;
        if bytes.len() > MOST_FETCHED {
            return Ok(None);
        }
    }
    Ok(None)
}

/// Adds the bytes at the end of the file, which has to be there.
fn append_to<R: Files>(rt: &R, name: &str, bytes: &[u8]) -> io::Result<()> {
    let mut file = OpenOptions::new().append(true).open(rt, name)?;
    file.write_all(bytes)
}

impl<R: Files + Print + Drop> FileDesk<R> {
    ghost use Rattle.ftc_outside.specs.Files.{file_faults};

    /// A desk over the files and the standard output of this runtime, of which no call has failed yet.
    pub fn new(rt: R) -> FileDesk<R>
        ensures faults { file_faults result ≡ 0 }
    {
        FileDesk { rt, faults: 0 }
    }

    fn fail(&mut self) -> DeskError
        ensures same { result ≡ DeskError.Failed }
        ensures count { self.old.faults ≤ self.new.faults }
        ensures rose { Rose self.old.faults self.new.faults }
    {
        self.faults = self.faults.saturating_add(1);
        DeskError::Failed
    }
}

impl<R: Files + Print + Drop> Desk for FileDesk<R> {
    ghost tells = { λ _. ⊥ };

    ghost file = { λ _ _. None };

    ghost faults = { λ desk. desk.faults };

    ghost sound = { λ _. ⊥ };

    fn fetch(&mut self, alloc: Global, name: &str) -> Result<Bytes, DeskError> {
        let Ok(mut file) = OpenOptions::new().read(true).open(&self.rt, name) else {
            return Err(self.fail());
        };
        match read_all(alloc, &mut file)? {
            Some(bytes) => Ok(bytes),
            None => Err(self.fail()),
        }
    }

    fn make(&mut self, _alloc: Global, name: &str) -> Result<(), DeskError> {
        match OpenOptions::new()
            .write(true)
            .create(true)
            .truncate(true)
            .open(&self.rt, name)
        {
            Ok(_) => Ok(()),
            Err(_) => Err(self.fail()),
        }
    }

    fn append(&mut self, _alloc: Global, name: &str, bytes: &[u8]) -> Result<(), DeskError> {
        let written = if name == "-" {
            self.rt.write_all(bytes)
        } else {
            append_to(&self.rt, name, bytes)
        };
        match written {
            Ok(()) => Ok(()),
            Err(_) => Err(self.fail()),
        }
    }
}
