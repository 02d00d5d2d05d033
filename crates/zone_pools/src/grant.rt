//! What zones share, and what an event is given of it.
ghost use Rattle.std.specs.Prelude.{◌≡◌};
ghost use Rattle.zone_pools.specs.Decisions.{number_in};
ghost use Rattle.zone_pools.specs.Pools.{numbered};

/// A pool that all zones share.
#[derive(Clone, Copy, PartialEq, Eq)]
pub enum Pool {
    /// The numbers of processes, 2 to 29999.
    Pids,
    /// The numbers of zones that are being made ready or are not yet halted, 1 to 9999.
    Zids,
    /// The places of stored zones, of which there are 256.
    Zones,
    /// The zone paths, each of one zone.
    Paths,
    /// The room of the store, and the numbers of its records.
    Store,
    Links,
    Addresses,
    Datasets,
    /// The zones that may be cloned.
    Source,
}

/// What an event is given of the pools that it asks.
#[derive(Clone, Copy, PartialEq, Eq)]
pub enum Grant {
    Nothing,
    Number(u32),
    Yes,
    Denied(Pool),
}

/// The number that a grant gives, else the pool that denies it.
pub fn number_in(grant: Grant) -> Result<u32, Pool>
    ensures { result ≡ number_in grant }
{
    match grant {
        Grant::Number(number) => Ok(number),
        Grant::Yes => Ok(0),
        Grant::Denied(pool) => Err(pool),
        Grant::Nothing => Err(Pool::Store),
    }
}

/// The grant of a number that a pool has, or its denial where it has none.
pub fn numbered(pool: Pool, number: Option<u32>) -> Grant
    ensures { result ≡ numbered pool number }
{
    match number {
        Some(number) => Grant::Number(number),
        None => Grant::Denied(pool),
    }
}
