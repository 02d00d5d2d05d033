//! What passes tell of a zone.

/// What a zone tells when it gives the part back. No value of it is made: it stands in contracts alone.
pub enum Note<E> {
    /// The zone did this.
    Done(E),
    /// The zone of this place is marked.
    Marked(u32),
    /// The zone of this place isn't marked.
    Free(u32),
}
