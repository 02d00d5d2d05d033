//! What passes know. No value of these types is made: they stand in contracts alone.
use std::collections::LinkedList;

/// Where a pass is on its way to the part and back.
pub enum Stage<E> {
    Idle,
    /// It has drawn this ticket.
    Waits(u64),
    /// It has the part out. So many gives were made before, and the part stood for these entries.
    Out(u64, LinkedList<E>),
}

/// What the first pass knows of the others.
pub struct Roster<E> {
    /// How many passes were ever made, the first one too.
    pub made: u64,
    /// How many of the others are not taken back.
    pub out: u64,
    /// The list of each pass that was taken back, with its number.
    pub kept: LinkedList<(u64, LinkedList<E>)>,
}

pub enum Role<E> {
    First(Roster<E>),
    Other,
    /// It was taken back.
    Spent,
}

/// What a pass knows: its number, and the entries that it gave, in their order.
pub struct View<E> {
    pub number: u64,
    pub list: LinkedList<E>,
    pub stage: Stage<E>,
    pub role: Role<E>,
}
