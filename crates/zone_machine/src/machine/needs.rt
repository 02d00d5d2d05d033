//! What a case asks of the pools.
ghost use Rattle.config_terms.specs.Fields.{path_text};
ghost use Rattle.zone_pools.specs.Asked.{A_path};
ghost use Rattle.zoneadmd_steps.specs.Arrivals.{record_asked};
ghost use Rattle.std.specs.Prelude.{◌∷◌, ◌≡◌, [], None};
ghost use Rattle.zone_pools.specs.Decisions.{asked_of};
ghost use Rattle.zone_cases.specs.Code.Cases.{IsCaseOf, decision_of, made};
ghost use Rattle.zoneadmd_steps.specs.Code.Cases.{IsTurnOf, asked_for, job_turn, turn_decision_of};
ghost use Rattle.zoneadmd_steps.specs.Desks as desks;
ghost use Rattle.zone_machine.specs.Code.Needs.{asked_by};
ghost use Rattle.zoneadmd_steps.specs.declared.desks.Desk as desk_types;
ghost use Rattle.zoneadmd_steps.specs.declared.desks.Job as job_types;

use commit_journal::{Row, record_length};
use datalink_table::Claim;
use zn_base::ZoneName;
use zone_cases::{Case, Committed, Novelty};
use zone_config::Property;
use zoneadmd_steps::{Came, JobCase, TurnCase};

/// What an event asks.
#[derive(Clone, Copy)]
pub(crate) enum Need<'c> {
    Nothing,
    Pid,
    Zid,
    /// A record of a zone that is stored, and how many bytes that has.
    Record(usize),
    /// A record of a zone that is stored, with a path that is new to it, and its bytes.
    Moved(&'c [u8], usize),
    /// A record of a new zone, with its path, and its bytes.
    NewZone(&'c [u8], usize),
    /// An item that a zone would hold.
    Item(&'c Claim),
    /// A zone that would be cloned.
    Source(&'c ZoneName),
}

// A record of a zone that is stored. How long it is doesn't hang on its number.
fn record_need(row: &Row) -> Need<'_>
    ensures same { asked_by result ≡ record_asked (λ n. Some row.now) ∷ [] }
    ensures numbered { asked_by result ≡ record_asked (λ n. Some (record row.now { revision = n })) ∷ [] }
{
    Need::Record(record_length(row.record()))
}

// A record of a zone that is stored, with a path that is new to it.
fn moved_need(row: &Row) -> Need<'_>
    ensures { asked_by result ≡ A_path (path_text row.now.config.zonepath) ∷ record_asked (λ n. Some (record row.now { revision = n })) ∷ [] }
{
    let stored = row.record();
    Need::Moved(
        stored.config.shown(Property::Zonepath),
        record_length(stored),
    )
}

// The record of a commit, with what is new in it.
fn commit_need(committed: &Committed) -> Need<'_>
    ensures { asked_by result ≡ asked_of (made committed.now.novelty committed.now.owner committed.now.row.value committed.now.told committed.now.committer) }
{
    let stored = committed.row.record();
    let path = stored.config.shown(Property::Zonepath);
    let size = record_length(stored);
    match committed.novelty {
        Novelty::Zone => Need::NewZone(path, size),
        Novelty::Path => Need::Moved(path, size),
        Novelty::Nothing => Need::Record(size),
    }
}

// How many bytes are stored of a zone that is removed.
const REMOVAL_LENGTH: usize = 11;

// The record by which a zone is removed.
fn removal_need() -> Need<'static>
    ensures { asked_by result ≡ record_asked (λ n. None) ∷ [] }
{
    Need::Record(REMOVAL_LENGTH)
}

fn came_need(it: &Came) -> Need<'_>
    ensures { asked_by result ≡ asked_for it.now }
{
    match it {
        Came::Process(_, _) => Need::Pid,
        Came::Id => Need::Zid,
        Came::Claim(claim) => Need::Item(claim),
        Came::Record(row, _) => record_need(row),
        Came::Moved(row, _, is_new) => {
            if *is_new {
                moved_need(row)
            } else {
                record_need(row)
            }
        }
        Came::Source(source) => Need::Source(source),
    }
}

fn job_need(case: &JobCase) -> Need<'_>
    ensures { (d : desks.Desk) (j : job_types.Job) → asked_of (job_turn d j case.now) ≡ asked_by result }
{
    match case {
        JobCase::Ask(it, _) => came_need(it),
        JobCase::Finish(_) => Need::Nothing,
        JobCase::Pass(_) => Need::Nothing,
        JobCase::Unmounts(_, _) => Need::Nothing,
        JobCase::Releases(_, _) => Need::Nothing,
        JobCase::Fail(_) => Need::Nothing,
        JobCase::Stuck => Need::Nothing,
        JobCase::Undo(_) => Need::Nothing,
    }
}

fn turn_need(case: &TurnCase) -> Need<'_>
    ensures { (d : desk_types.Desk) → IsTurnOf d case.now → asked_of (turn_decision_of d case.now) ≡ asked_by result }
{
    match case {
        TurnCase::GoOn(case) => job_need(case),
        TurnCase::Idle => Need::Nothing,
        TurnCase::Begin(_) => Need::Nothing,
        TurnCase::BeginHalt(_) => Need::Nothing,
        TurnCase::Again(_) => Need::Nothing,
        TurnCase::Refuse(_, _) => Need::Nothing,
    }
}

/// What an event asks that comes to a case.
pub(crate) fn need_of(case: &Case) -> Need<'_>
    ensures { (d : desk_types.Desk) → IsCaseOf d case.now → asked_of (decision_of d case.now) ≡ asked_by result }
{
    match case {
        Case::Says(_)
        | Case::Tells(_)
        | Case::Answers(_)
        | Case::Sit(_)
        | Case::Change(_, _)
        | Case::Write(_, _)
        | Case::AtConsole(_) => Need::Nothing,
        Case::Fork(_, _) | Case::Login(_) | Case::Enter(_) => Need::Pid,
        Case::Commit(committed) => commit_need(committed),
        Case::Remove(_) => removal_need(),
        Case::Put(_, _) => Need::Nothing,
        Case::Turn(case) => turn_need(case),
    }
}
