//! The editor of zonecfg(8): subcommands that change the configuration that is open, or a resource of it.
//! What is open after any list of subcommands is what that list denotes, and each refusal is the first
//! whose cause stands.
#![tactic(auto)]

mod base;
mod command;
mod create;
mod editor;
mod fault;
mod forms;
mod info;
mod laws;
mod line;
mod opened;
mod resource_scope;
mod turns;
mod verb;
mod words;

pub use base::Base;
pub use command::{Command, EditReply, ListProperty, Matching, Topic};
pub use editor::Editor;
pub use fault::{EditFault, Scope};
pub use forms::{read_command, read_tokens};
pub use laws::{lines_denote, one_stands, refusal_is_the_first_cause};
pub use turns::next_command;
