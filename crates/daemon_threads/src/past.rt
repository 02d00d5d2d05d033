//! The states of the machine, as threads see it.
use commit_journal::Commit;
use std::collections::LinkedList;
use zone_cases::Entry;

/// A state of the machine as threads see it: what was stored before any event, what was stored when the sessions began, and all entries,
/// the latest first. No value of it is made: it stands in contracts alone.
pub struct Past {
    pub commits: LinkedList<Commit>,
    pub stored: LinkedList<Commit>,
    pub entries: LinkedList<Entry>,
}
