//! What follows from the clauses of a configuration's calls, whatever their bodies are.
ghost use Rattle.zone_config.specs.Settable.{ClearsWhereNamed, SetsWhereAllowed};

/// A law: by its clause, `set_property` succeeds only where there is a property of that name and its rule
/// allows the value. There it fails only where memory runs out, where the text would be too long, and of an
/// alias where an rctl of another form holds it, or where it has no rctl yet and there are 256 resources.
/// Else the property shows the value, or the alias is one rctl with that limit, and everything else is as
/// it was.
pub fn sets_where_allowed()
    ensures { SetsWhereAllowed }
{}

/// A law: by its clause, `clear_property` fails only where there is no property of that name, of an alias
/// where an rctl of another form holds it, and of autoboot where the text with `false` would be too long.
/// Else the property is as in a blank configuration, or the alias has no rctl, and everything else is as it
/// was.
pub fn clears_where_named()
    ensures { ClearsWhereNamed }
{}
