//! What follows from the definitions of `export`'s output, of a trace's script and of what a crash leaves, whatever the
//! program's body is.
ghost use Rattle.zones_run.specs.Bulk.{BulkComesToItsEnd};
ghost use Rattle.zones_run.specs.Declarations.{DeclaresFirst};
ghost use Rattle.zones_run.specs.Denoted.{ExportsWhatIsDenoted, RefusesAtWhatIsDenoted};
ghost use Rattle.zones_run.specs.Resting.{CrashesLeaveStoredStates};
ghost use Rattle.zones_run.specs.Permitted.{EntriesAreTheMachines, LinesAreTheEvents};
ghost use Rattle.zones_run.specs.Purged.{PurgedRunsAsGiven};
ghost use Rattle.zones_run.specs.Turns_end.{ScriptTicketsEnd, ScriptTurnsEnd, TurnsEnd};

/// A law: where `export` ends with status 0, it has written the export text of the configuration that the
/// subcommands of its input denote, with scopes as brackets in their list, and that has no flaw.
pub fn exports_what_is_denoted()
    ensures { ExportsWhatIsDenoted }
{}

/// A law: where `export` ends with status 1, it reports the first line that is refused, and why its first refused
/// subcommand is, at what all subcommands before it denote; or why the end is, at what those of all lines denote.
pub fn refuses_at_what_is_denoted()
    ensures { RefusesAtWhatIsDenoted }
{}

/// A law: of the events that `trace` takes from its input, only declarations stand before a declaration.
pub fn declares_first()
    ensures { DeclaresFirst }
{}

/// A law: each zone of an image that a crash may leave of a trace, at any moment, is configured, incomplete or installed.
pub fn crashes_leave_stored_states()
    ensures { CrashesLeaveStoredStates }
{}

/// A law: only `script` puts turns in, and only a line that states a grant may be unfit, so the events of a `trace`, and of a
/// `purge`, are those of its lines.
pub fn only_script_puts_in()
    ensures { LinesAreTheEvents }
{}

/// A law: the entries of a run make a history of the zone machine, each under the grant that the pools give or, where lines state
/// grants, under one that fits.
pub fn entries_are_the_machines()
    ensures { EntriesAreTheMachines }
{}

/// A law: where a trace ends with status 0 or 1, `given` over what `purge` writes of it for a zone comes to its end, over any store
/// with the same record of the zone that is no fuller and has 255 other zones at most, unless a line of it is past the limit. It
/// answers just the entries that were kept, and writes just the reply lines of the zone and of the whole system.
pub fn purged_traces_are_answered_alike()
    ensures { PurgedRunsAsGiven }
{}

/// A law: where a zone's daemon has fewer turns left than may be put in, and the zone stays small, the last turn that is put in
/// after a line answers the line's ticket, or the daemon is stuck or has nothing to do.
pub fn turns_that_are_put_in_end()
    ensures { TurnsEnd }
{}

/// A law: after any history whose grants fit, the last turn that is put in after a line answers the line's ticket, or the daemon is
/// stuck or has nothing to do, where what was stored of the zone at the start is right.
pub fn script_turns_end()
    ensures turns { ScriptTurnsEnd }
    // So in the whole run of a script each entry that opens a ticket is followed by such turns.
    ensures runs { ScriptTicketsEnd }
{}

/// A law: the script that `bulk` makes for 256 zones at most comes to its end: no line of it is outside the grammar or past a limit,
/// and none restarts the system.
pub fn bulk_comes_to_its_end()
    ensures { BulkComesToItsEnd }
{}
