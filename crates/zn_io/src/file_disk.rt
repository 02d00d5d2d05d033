//! A disk over a file of the system. It is the trusted edge of the program, and says nothing of content.
ghost use Rattle.std.specs.Prelude.{◌≡◌, ◌+◌, ◌<◌, ◌^◌, ◌≤◌, ℕ, length, IfOk};
ghost use Rattle.zn_io.specs.FileDisk.{untold, untold_is_sound};
ghost use Rattle.zn_io.specs.Streams.{one_more, Rose};

use crate::{Disk, Failed};
use std::fs::{File, OpenOptions};
use std::io;
use std::os::unix::fs::FileExt;
use std::path::Path;
use std::rt::Files;

/// The file of a given name, which is opened at the first call and made where it is missing. A sync is
/// the system's. What the file holds, it doesn't say: its view grants no `Keeps` and no image.
#[derive(Drop)]
pub struct FileDisk<'a, R: Files<File = File>> {
    files: &'a R,
    name: &'a str,
    file: Option<File>,
    faults: u64,
}

impl<'a, R: Files<File = File>> FileDisk<'a, R> {
    /// The disk in the file of this name. It opens nothing yet.
    pub fn new(files: &'a R, name: &'a str) -> FileDisk<'a, R> {
        FileDisk {
            files,
            name,
            file: None,
            faults: 0,
        }
    }

    // The first call's work, which each later one steps over.
    #[inline(never)]
    fn open_first(&mut self) -> io::Result<()>
        ensures { self.new.faults ≡ self.old.faults }
    {
        self.file = Some(open_file(self.files, self.name)?);
        Ok(())
    }

    // Opens the file at the first call.
    fn open(&mut self) -> io::Result<()>
        ensures { self.new.faults ≡ self.old.faults }
    {
        if self.file.is_none() {
            self.open_first()?;
        }
        Ok(())
    }

    fn opened(&self) -> io::Result<&File> {
        match &self.file {
            Some(file) => Ok(file),
            None => Err(io::ErrorKind::NotFound.into()),
        }
    }

    fn try_length(&mut self) -> io::Result<u64>
        ensures { self.new.faults ≡ self.old.faults }
    {
        self.open()?;
        length_of(self.opened()?)
    }

    fn try_read(&mut self, at: u64, into: &mut [u8]) -> io::Result<usize>
        ensures bound { IfOk result (λ n. n ≤ length into.old) }
        ensures faults { self.new.faults ≡ self.old.faults }
    {
        self.open()?;
        read_from(self.opened()?, at, into)
    }

    fn try_write(&mut self, at: u64, bytes: &[u8]) -> io::Result<()>
        ensures { self.new.faults ≡ self.old.faults }
    {
        self.open()?;
        self.opened()?.write_all_at(bytes, at)
    }

    fn try_sync(&mut self) -> io::Result<()>
        ensures { self.new.faults ≡ self.old.faults }
    {
        self.open()?;
        self.opened()?.sync_all()
    }

    fn fail(&mut self) -> Failed
        ensures counted { self.new.faults ≡ one_more self.old.faults }
        ensures later { self.old.faults ≤ self.new.faults }
    {
        self.faults = self.faults.saturating_add(1);
        Failed
    }
}

fn folder_of(name: &str) -> Path<'_> {
    match Path::new(name).parent() {
        Some(folder) if !folder.as_str().is_empty() => folder,
        _ => Path::new("."),
    }
}

fn sync_folder_of<R: Files<File = File>>(files: &R, name: &str) -> io::Result<()> {
    File::open(files, folder_of(name))?.sync_all()
}

// Opens a file for reading and writing, and makes it where it is missing: then its name is in its folder
// for good once this answers.
fn open_file<R: Files<File = File>>(files: &R, name: &str) -> io::Result<File> {
    let file = OpenOptions::new()
        .read(true)
        .write(true)
        .create(true)
        .open(files, name)?;
    sync_folder_of(files, name)?;
    Ok(file)
}

fn length_of(file: &File) -> io::Result<u64> {
    Ok(file.metadata()?.len())
}

// Fills the front of `into` with what the file has from an offset on.
fn read_from(file: &File, at: u64, into: &mut [u8]) -> io::Result<usize>
    ensures { IfOk result (λ n. n ≤ length into.old) }
{
    let count = length_of(file)?.saturating_sub(at).min(into.len() as u64) as usize;
    file.read_exact_at(&mut into[..count], at)?;
    Ok(count)
}

impl<'a, R: Files<File = File>> Disk for FileDisk<'a, R> {
    ghost view = { λ d. untold d.faults };

    ghost sound = { λ d. untold_is_sound d.faults };

    fn length(&mut self) -> Result<u64, Failed> {
        match self.try_length() {
            Ok(length) => Ok(length),
            Err(_) => Err(self.fail()),
        }
    }

    fn read(&mut self, at: u64, into: &mut [u8]) -> Result<usize, Failed> {
        match self.try_read(at, into) {
            Ok(count) => Ok(count),
            Err(_) => Err(self.fail()),
        }
    }

    fn write_at(&mut self, at: u64, bytes: &[u8]) -> Result<(), Failed> {
        match self.try_write(at, bytes) {
            Ok(()) => Ok(()),
            Err(_) => Err(self.fail()),
        }
    }

    fn sync(&mut self) -> Result<(), Failed> {
        match self.try_sync() {
            Ok(()) => Ok(()),
            Err(_) => Err(self.fail()),
        }
    }
}
