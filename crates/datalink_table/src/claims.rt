//! What a zone may claim: an item of a kind.
ghost use Rattle.std.specs.Prelude.{◌≡◌, IfOk};
ghost use Rattle.std.specs.Cmp.{partial_equiv_from_equiv};
ghost use Rattle.std.specs.Cmp.Rules.{comparing, hashing};
ghost use Rattle.std.specs.Hash as fed;
ghost use Rattle.std.proofs.Common.{rules};
ghost use Rattle.datalink_table.specs.Claims.{claim_of, pool_of, same_claim};

use indexmap::Equivalent;
use std::alloc::{AllocError, Global};
use std::hash::{Hash, Hasher};
use zn_base::Text;
use zone_pools::Pool;

/// What an item is. Items of different kinds are different, also where their names are equal.
#[derive(Clone, Copy, PartialEq, Eq)]
pub enum ClaimKind {
    /// A data link of dladm(8), which a zone with an IP stack of its own claims.
    Link,
    /// An IP address without its prefix length, which a zone claims that shares the global zone's IP stack.
    Address,
    /// A dataset of zfs(8) that is delegated to a zone.
    Dataset,
}

impl ClaimKind {
    /// The pool that denies items of the kind.
    pub fn pool(self) -> Pool
        ensures { result ≡ pool_of self }
    {
        match self {
            ClaimKind::Link => Pool::Links,
            ClaimKind::Address => Pool::Addresses,
            ClaimKind::Dataset => Pool::Datasets,
        }
    }
}

/// An item with its kind, as it is declared and claimed.
#[derive(Drop)]
pub struct Claim {
    pub kind: ClaimKind,
    /// The link's name, the address or the dataset's name.
    pub item: Text,
}

impl Claim {
    /// An equal one.
    pub fn copy(&self, alloc: Global) -> Result<Claim, AllocError>
        ensures { IfOk result (λ claim. claim ≡ self.now) }
    {
        Ok(Claim {
            kind: self.kind,
            item: self.item.copy(alloc)?,
        })
    }
}

impl PartialEq for Claim {
    ghost eq = { same_claim };

    ghost laws = { Prim.search (comparing, rules) };

    fn eq(&self, other: &Claim) -> bool {
        self.kind == other.kind && self.item == other.item
    }
}

impl Eq for Claim {
    ghost laws = { Prim.search (comparing, rules) };
}

// By the item alone, since few items of different kinds have one name.
impl Hash for Claim {
    ghost hash_input = { λ c. fed.slice fed.u8 c.item };

    ghost respects_eq = { Prim.search (hashing, rules) };

    fn hash<H: Hasher>(&self, state: &mut H) {
        self.item.bytes().hash(state);
    }
}

/// An item as it is looked up, which takes no memory.
#[derive(Clone, Copy, PartialEq, Eq)]
pub(crate) struct Named<'t> {
    pub(crate) kind: ClaimKind,
    pub(crate) item: &'t Text,
}

impl<'t> Hash for Named<'t> {
    ghost hash_input = { λ n. fed.slice fed.u8 n.item.now };

    ghost respects_eq = { Prim.search (hashing, rules) };

    fn hash<H: Hasher>(&self, state: &mut H) {
        self.item.bytes().hash(state);
    }
}

impl<'t> Equivalent<Claim> for Named<'t> {
    ghost equivalent = { λ n. same_claim (claim_of n.kind n.item.now) };

    ghost respects_hash = { Prim.search (hashing, rules) };

    ghost respects_eq = { Prim.search (comparing, rules) };

    fn equivalent(&self, claim: &Claim) -> bool {
        self.kind == claim.kind && *self.item == claim.item
    }
}
