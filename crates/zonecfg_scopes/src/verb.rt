//! The words that begin subcommands.
ghost use Rattle.std.specs.Prelude.{◌≡◌};
ghost use Rattle.zonecfg_scopes.specs.Commands.{verb_name, verb_named};

/// The word that begins a subcommand.
#[derive(Clone, Copy, Debug, PartialEq, Eq)]
pub enum Verb {
    Add,
    Cancel,
    Clear,
    Commit,
    Create,
    Delete,
    End,
    Exit,
    Export,
    Help,
    Info,
    Remove,
    Revert,
    Select,
    Set,
    Verify,
}

/// All of them, in the order in which `help` lists them.
const VERBS: [Verb; 16] = [
    Verb::Add,
    Verb::Cancel,
    Verb::Clear,
    Verb::Commit,
    Verb::Create,
    Verb::Delete,
    Verb::End,
    Verb::Exit,
    Verb::Export,
    Verb::Help,
    Verb::Info,
    Verb::Remove,
    Verb::Revert,
    Verb::Select,
    Verb::Set,
    Verb::Verify,
];

impl Verb {
    /// The word itself.
    pub fn name(self) -> &'static [u8]
        ensures { result.now ≡ verb_name self }
    {
        match self {
            Verb::Add => b"add",
            Verb::Cancel => b"cancel",
            Verb::Clear => b"clear",
            Verb::Commit => b"commit",
            Verb::Create => b"create",
            Verb::Delete => b"delete",
            Verb::End => b"end",
            Verb::Exit => b"exit",
            Verb::Export => b"export",
            Verb::Help => b"help",
            Verb::Info => b"info",
            Verb::Remove => b"remove",
            Verb::Revert => b"revert",
            Verb::Select => b"select",
            Verb::Set => b"set",
            Verb::Verify => b"verify",
        }
    }

    /// The subcommand that a word begins.
    #[tactic(auto, unfolding(crate::specs::Commands::verb_named))]
    pub fn named(word: &[u8]) -> Option<Verb>
        ensures { result ≡ verb_named word.now }
    {
        VERBS.iter().copied().find(|verb| word == verb.name())
    }
}
