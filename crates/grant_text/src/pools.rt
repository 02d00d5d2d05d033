//! The words of the pools.
ghost use Rattle.std.specs.Prelude.{◌≡◌, IfSome, Some, bytes_eq, find};
ghost use Rattle.zone_pools.specs.declared.grant.Pool.{Pool};
ghost use Rattle.grant_text.specs.Text.{pool_word};

use zone_pools::Pool;

const POOLS: [Pool; 9] = [
    Pool::Pids,
    Pool::Zids,
    Pool::Zones,
    Pool::Paths,
    Pool::Store,
    Pool::Links,
    Pool::Addresses,
    Pool::Datasets,
    Pool::Source,
];

/// The word of a pool, as a grant's text has it and a denied request's reply.
pub fn pool_word(pool: Pool) -> &'static [u8]
    ensures { result.now ≡ pool_word pool }
{
    match pool {
        Pool::Pids => b"pids",
        Pool::Zids => b"zids",
        Pool::Zones => b"zones",
        Pool::Paths => b"paths",
        Pool::Store => b"store",
        Pool::Links => b"links",
        Pool::Addresses => b"addresses",
        Pool::Datasets => b"datasets",
        Pool::Source => b"source",
    }
}

// The first pool of some whose word some bytes are.
fn first_named(pools: &[Pool], word: &[u8]) -> Option<Pool>
    ensures { result ≡ find (λ pool. bytes_eq (pool_word pool) word.now) pools.now }
{
    pools.iter().copied().find(|pool| pool_word(*pool) == word)
}

/// The pool whose word some bytes are, if there is one.
pub(crate) fn pool_in(word: &[u8]) -> Option<Pool>
    ensures some { IfSome result (λ pool. word.now ≡ pool_word pool) }
    ensures every { (pool : Pool) → word.now ≡ pool_word pool → result ≡ Some pool }
{
    first_named(&POOLS, word)
}
