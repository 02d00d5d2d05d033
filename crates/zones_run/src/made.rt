//! A source and a sink in memory, for a script that is made and run: what is left of its text, and the marks of its events.
ghost use Rattle.std.specs.Prelude.{◌≡◌, [], length, take, min, Some};

use std::alloc::Global;
use std::marker::Model;
use zn_io::{Failed, Sink, Source};

/// A text that is read, and never fails to be. Contracts see what is left of it.
#[derive(Drop)]
pub struct Made {
    text: Vec<u8>,
    at: usize,
}

impl Model for Made {
    ghost use Rattle.std.specs.Prelude.{List, ℕ, drop, length, ◌≤◌};

    ghost Value = { List ℕ };

    ghost view = { λ m. drop m.at m.text.items };

    ghost invariant = { λ m. m.at ≤ length m.text.items };
}

impl Made {
    pub fn new(text: Vec<u8>) -> Made
        ensures { result ≡ text.items }
    {
        Made { text, at: 0 }
    }
}

// Copies as much as fits, and says how much.
fn copy_front(from: &[u8], into: &mut [u8]) -> usize
    ensures count { result ≡ min (length from.now) (length into.old) }
    ensures bytes { take result into.new ≡ take result from.now }
{
    let count = from.len().min(into.len());
    into[..count].copy_from_slice(&from[..count]);
    count
}

impl Source for Made {
    ghost left = { λ m. Some m };

    ghost faults = { λ _. 0 };

    fn read(&mut self, into: &mut [u8]) -> Result<usize, Failed> {
        let count = copy_front(&self.text[self.at..], into);
        self.at += count;
        Ok(count)
    }
}

/// The marks of the events that were answered. It fails where memory runs out. Contracts see the marks and the count of faults.
#[derive(Drop)]
pub struct Marks {
    pub bytes: Vec<u8>,
    pub faults: u64,
}

impl Marks {
    /// There are none yet.
    pub fn new(alloc: Global) -> Marks
        ensures { result.bytes.items ≡ [] }
    {
        Marks {
            bytes: Vec::new(alloc),
            faults: 0,
        }
    }
}

impl Sink for Marks {
    ghost holds = { λ m. Some m.bytes.items };

    ghost faults = { λ m. m.faults };

    fn write(&mut self, bytes: &[u8]) -> Result<usize, Failed> {
        match self.bytes.extend_from_slice(bytes) {
            Ok(()) => Ok(bytes.len()),
            Err(_) => {
                self.faults = self.faults.saturating_add(1);
                Err(Failed)
            }
        }
    }
}
