// The few lines over a real file. No clause can say what it holds.
ghost use Rattle.std.specs.Prelude.{◌≡◌, None, IsNone, IsErr, is_ok};
ghost use Rattle.uss_cause.specs.Cause.{Counts};

use crate::{Disk, DiskFault};
use std::fs::{File, OpenOptions};
use std::io;
use std::os::unix::fs::FileExt;
use std::path::Path;
use std::rt::Files;
use uss_cause::raised;

/// A real file. It tells nothing of what it holds, and is not said to be honest.
///
/// Its calls are those of the system: one that the system refuses is a fault, and it is counted. Where the file or its
/// folder couldn't be opened every call is a fault, and so is every call after a sync that was refused, since the
/// system may then have dropped what it was to write, and would report later syncs as done.
#[derive(Drop)]
pub struct FileDisk {
    file: Option<File>,
    // The file's folder, until it was synced.
    folder: Option<File>,
    faults: u64,
}

impl FileDisk {
    ghost use Rattle.uss_disk.specs.File.{faults_of};

    /// Opens the file at this path to read and write it, and makes an empty one where there is none.
    pub fn open(rt: &impl Files<File = File>, path: &str) -> FileDisk
        ensures { faults_of result ≡ 0 }
    {
        let file = OpenOptions::new()
            .read(true)
            .write(true)
            .create(true)
            .open(rt, path);
        let folder = File::open(rt, folder_of(path));
        match (file, folder) {
            (Ok(file), Ok(folder)) => FileDisk {
                file: Some(file),
                folder: Some(folder),
                faults: 0,
            },
            _ => FileDisk {
                file: None,
                folder: None,
                faults: 0,
            },
        }
    }
}

// The folder that a path lies in.
fn folder_of(path: &str) -> Path<'_> {
    match Path::new(path).parent() {
        Some(folder) if !folder.as_str().is_empty() => folder,
        _ => Path::new("."),
    }
}

// The system's answer, with its refusal counted.
fn counted<T>(faults: &mut u64, answer: io::Result<T>) -> Result<T, DiskFault>
    ensures counts { Counts faults.old faults.new result }
    ensures kept { is_ok result ≡ is_ok answer }
{
    match answer {
        Ok(value) => Ok(value),
        Err(_) => {
            *faults = raised(*faults);
            Err(DiskFault)
        }
    }
}

// Syncs the file, and its folder where that wasn't yet synced.
fn sync_both(file: &Option<File>, folder: &mut Option<File>) -> io::Result<()>
    ensures { IsNone file.now → IsErr result }
{
    opened(file)?.sync_all()?;
    if let Some(place) = folder {
        place.sync_all()?;
    }
    *folder = None;
    Ok(())
}

fn opened(file: &Option<File>) -> io::Result<&File>
    ensures { IsNone file.now → IsErr result }
{
    match file {
        Some(file) => Ok(file),
        None => Err(io::ErrorKind::NotFound.into()),
    }
}

fn length(file: &Option<File>) -> io::Result<u64>
    ensures { IsNone file.now → IsErr result }
{
    Ok(opened(file)?.metadata()?.len())
}

fn read(file: &Option<File>, at: u64, buf: &mut [u8]) -> io::Result<()>
    ensures { IsNone file.now → IsErr result }
{
    opened(file)?.read_exact_at(buf, at)
}

fn write(file: &Option<File>, at: u64, bytes: &[u8]) -> io::Result<()>
    ensures { IsNone file.now → IsErr result }
{
    opened(file)?.write_all_at(bytes, at)
}

fn shorten(file: &Option<File>, len: u64) -> io::Result<()>
    ensures { IsNone file.now → IsErr result }
{
    opened(file)?.set_len(len)
}

impl Disk for FileDisk {
    ghost use Rattle.std.specs.Prelude.{None};
    ghost use Rattle.uss_disk.specs.File.{faults_of, StaysShut};

    ghost reads = { λ _. None };

    ghost may_leave = { λ _ _. Unit {0} };

    ghost moment = { λ _. 0 };

    ghost left_since = { λ _ _ _. Unit {0} };

    ghost is_honest = { λ _. ⊥ };

    ghost fault_count = { faults_of };

    ghost notes = { StaysShut };

    fn len(&mut self) -> Result<u64, DiskFault> {
        counted(&mut self.faults, length(&self.file))
    }

    fn read(&mut self, at: u64, buf: &mut [u8]) -> Result<(), DiskFault> {
        counted(&mut self.faults, read(&self.file, at, buf))
    }

    fn write_at(&mut self, at: u64, bytes: &[u8]) -> Result<(), DiskFault> {
        counted(&mut self.faults, write(&self.file, at, bytes))
    }

    fn cut(&mut self, len: u64) -> Result<(), DiskFault> {
        counted(&mut self.faults, shorten(&self.file, len))?;
        self.sync()
    }

    fn sync(&mut self) -> Result<(), DiskFault> {
        let done = counted(&mut self.faults, sync_both(&self.file, &mut self.folder));
        if done.is_err() {
            self.file = None;
        }
        done
    }

    fn faults(&self) -> u64 {
        self.faults
    }

    ghost tells = { λ _ honest. absurd honest };

    ghost as_it_reads = { λ _ honest. absurd honest };

    ghost counts_now = { λ _ _ _ honest _ _. absurd honest };

    ghost only_now = { λ _ _ honest _. absurd honest };
}
