//! What follows from the definition of a line's run.
ghost use Rattle.zonecfg_lines.specs.Laws.{LineDenotes, RefusedLineStands};

/// A law: where no subcommand of a line is refused, what is edited after the line is what the subcommands before it and
/// its own denote since the base, and `revert` begins anew, with what is stored for the base.
pub fn line_denotes()
    ensures { LineDenotes }
{}

/// A law: where a line is refused, but not as a whole, a subcommand of it is: those before that one stand, and at what
/// they denote it is refused for that.
pub fn refused_line_stands()
    ensures { RefusedLineStands }
{}
