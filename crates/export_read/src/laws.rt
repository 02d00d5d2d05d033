//! What a user of export texts relies on.
ghost use Rattle.export_read.specs.Begun.{ExportTextsDiffer};
ghost use Rattle.export_read.specs.Saying.{LinesSayTheirCommands};

/// A law: the lines of a sound configuration's export text are those of its script, and the reader finds the
/// command of each.
pub fn lines_say_their_commands()
    ensures { LinesSayTheirCommands }
{}

/// A law: two sound configurations with one export text are equal.
pub fn export_texts_differ()
    ensures { ExportTextsDiffer }
{}
