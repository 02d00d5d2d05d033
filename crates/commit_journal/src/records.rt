//! What is stored of zones.
ghost use Rattle.std.specs.Prelude.{◌≡◌, ◌≤◌, IfOk, IfSome, IsTrue, option_map};
ghost use Rattle.zn_base.specs.States.{is_stored};
ghost use Rattle.commit_journal.specs.Bodies.{IsStorable};

use crate::StoredConfig;
use std::alloc::AllocError;
use std::marker::Model;
use std::ops::Deref;
use uuid::Uuid;
use zn_base::{ZoneName, ZoneState};

/// What is stored of a zone. Its state is configured, incomplete or installed, and its configuration has a
/// zonepath.
pub struct Record {
    pub state: ZoneState,
    pub uuid: Uuid,
    /// The number of the record that gave the zone its configuration, from 1.
    pub revision: u32,
    pub config: StoredConfig,
}

// It goes in one step, so that a function that holds one has one step for it at each of its exits.
impl Drop for Record {
    fn drop(self) {
        let Record {
            state: _,
            uuid: _,
            revision: _,
            config: _,
        } = self;
    }
}

impl Record {
    /// An equal record, which shares the configuration.
    pub fn copy(&self) -> Result<Record, AllocError>
        ensures { IfOk result (λ row. row ≡ self.now) }
    {
        Ok(Record {
            state: self.state,
            uuid: self.uuid,
            revision: self.revision,
            config: self.config.share()?,
        })
    }
}

/// A record in form: of a stored state, with a revision from 1 on and a zonepath. Contracts see the record.
#[derive(Drop)]
pub struct Row {
    stored: Record,
}

impl Model for Row {
    ghost use Rattle.commit_journal.specs.Bodies.{IsStorable};
    ghost use Rattle.commit_journal.specs.declared.records.Record.{Record};

    ghost Value = { Record };

    ghost view = { λ row. row.stored };

    ghost invariant = { λ row. IsStorable row.stored };
}

impl Deref for Row {
    type Target = Record;

    ghost deref_gives = { λ row r. r ≡ row };

    fn deref(&self) -> &Record {
        &self.stored
    }
}

impl Row {
    /// The record itself.
    pub fn record(&self) -> &Record
        ensures same { result.now ≡ self.now }
        ensures form { IsStorable self.now }
    {
        &self.stored
    }

    /// A record that is in form.
    pub fn new(stored: Record) -> Row
        requires { IsStorable stored }
        ensures { result ≡ stored }
    {
        Row { stored }
    }

    /// An equal one, which shares the configuration.
    pub fn copy(&self) -> Result<Row, AllocError>
        ensures { IfOk result (λ row. row ≡ self.now) }
    {
        Ok(Row {
            stored: self.stored.copy()?,
        })
    }

    /// An equal one, but for the state, which is another of the stored ones. It shares the configuration.
    pub fn in_state(&self, to: ZoneState) -> Result<Row, AllocError>
        requires { IsTrue (is_stored to) }
        ensures { IfOk result (λ row. row ≡ record self.now { state = to }) }
    {
        Ok(Row {
            stored: Record {
                state: to,
                uuid: self.stored.uuid,
                revision: self.stored.revision,
                config: self.stored.config.share()?,
            },
        })
    }

    /// The record has a number, from 1 on, as its revision.
    pub fn set_revision(&mut self, number: u32)
        requires { 1 ≤ number }
        ensures { self.new ≡ record self.old { revision = number } }
    {
        self.stored.revision = number;
    }

    /// The zone has another UUID.
    pub fn set_uuid(&mut self, uuid: Uuid)
        ensures { self.new ≡ record self.old { uuid = uuid } }
    {
        self.stored.uuid = uuid;
    }
}

/// The record of a row, where there is one.
pub(crate) fn record_in(row: Option<&Row>) -> Option<&Record>
    ensures same { option_map (λ r. r.now) result ≡ option_map (λ row. row.now) row.entry }
    ensures form { IfSome result (λ r. IsStorable r.now) }
{
    match row {
        Some(row) => Some(row.record()),
        None => None,
    }
}

/// One record of a store: what is stored of a zone from then on, `None` where it is removed.
#[derive(Drop)]
pub struct Commit {
    pub zone: ZoneName,
    pub stored: Option<Record>,
}
