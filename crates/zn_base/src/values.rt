//! Values of properties, as zonecfg(8) writes them.
use crate::{Listing, Text};

/// A name and what it is given, as in `(priv=privileged)`.
#[derive(Drop)]
pub struct Pair {
    pub name: Text,
    pub value: Text,
}

/// What a property is given: one text, pairs in round brackets, or a list in square ones.
#[derive(Drop)]
pub enum Value {
    Simple(Text),
    Complex(Listing<Pair>),
    List(Listing<Text>),
}
