//! The record of a run, as it is taken.
ghost use Rattle.std.specs.Prelude.{◌≡◌, ◌++◌, ◌∷◌, [], IfNone, IfSome};

use std::collections::VecDeque;
use std::marker::Model;
use zone_cases::Entry;
use zone_threads::History;

/// What was declared, and behind it what sessions did, which are taken from the front. Contracts see the list of the entries that are
/// still to come.
#[derive(Drop)]
pub(crate) struct Record {
    declared: VecDeque<Entry>,
    lived: History<Entry>,
}

impl Model for Record {
    ghost use Rattle.std.specs.Prelude.{List, ◌++◌};
    ghost use Rattle.zone_cases.specs.declared.events.Entry.{Entry};

    ghost Value = { List Entry };

    ghost view = { λ r. r.declared.items ++ r.lived };
}

impl Record {
    /// It takes no memory.
    pub(crate) fn new(declared: Vec<Entry>, lived: History<Entry>) -> Self
        ensures { result ≡ declared.items ++ lived }
    {
        Record {
            declared: VecDeque::from_vec(declared),
            lived,
        }
    }

    /// Takes the first entry that is still to come. There is none where none is left.
    pub(crate) fn next(&mut self) -> Option<Entry>
        ensures some { IfSome result (λ e. self.old ≡ e ∷ self.new) }
        ensures none { IfNone result (self.old ≡ []) }
    {
        match self.declared.pop_front() {
            Some(entry) => Some(entry),
            None => self.lived.next(),
        }
    }
}
