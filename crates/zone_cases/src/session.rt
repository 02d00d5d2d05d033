//! Sessions: how a line is read, what it comes to, and what sessions do in a zone.
pub(crate) mod commits;
pub(crate) mod doings;
pub(crate) mod editing;
pub(crate) mod entering;
pub(crate) mod held;
pub(crate) mod judging;
pub(crate) mod line_cases;
pub(crate) mod lines;
pub(crate) mod listing;
pub(crate) mod logins;
pub(crate) mod telling_cases;
pub(crate) mod words;
pub(crate) mod zlogin_lines;
