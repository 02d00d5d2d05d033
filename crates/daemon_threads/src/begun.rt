//! What the sessions of a run begin with.
use crate::machine::Daemons;
use crate::names::Names;
use std::marker::PhantomData;
use zn_io::Disk;
use zone_threads::Start;

/// The states and the lines that the names of a run tell.
pub(crate) struct Begun<N> {
    of: PhantomData<N>,
}

impl<'b, D: Disk + Drop + Send, F, N: Names + Send> Start<Daemons<'b, D, F, N>> for Begun<N> {
    ghost starts = { N.starts };

    ghost scripts = { N.lines };
}
