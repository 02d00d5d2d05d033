//! What follows from the clauses of the editor's calls, whatever their bodies are.
ghost use Rattle.zonecfg_scopes.specs.Causes.{RefusalIsTheFirstCause};
ghost use Rattle.zonecfg_scopes.specs.Laws.{LinesDenote, OneStands};

/// A law: after a base and any list of subcommands exactly one thing is open: nothing, a configuration, or
/// a resource of one.
pub fn one_stands()
    ensures { OneStands }
{}

/// A law: what an editor makes of lines, one after another from its base, is what the whole list of their
/// subcommands denotes, with its scopes found as brackets.
pub fn lines_denote()
    ensures { LinesDenote }
{}

/// A law: a subcommand is refused for the first cause that stands, in the order of `causes`, and obeyed where none
/// does.
pub fn refusal_is_the_first_cause()
    ensures { RefusalIsTheFirstCause }
{}
