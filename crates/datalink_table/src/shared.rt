//! What other zones may ask.
ghost use Rattle.std.specs.Prelude.{◌≡◌, ◌<◌, ◌≤◌, [], None, Ok, OnErr, OnOk, Some};
ghost use Rattle.zn_base.specs.Answers.{AnswersUnless};
ghost use Rattle.datalink_table.specs.Claims.{claim_of};
ghost use Rattle.datalink_table.specs.Shared.{Alike, Declares, Frees, Takes, allows, ask_answer, claim_answer, count_of, declare_answer, holder, is_declared, is_held, may_hold};
ghost use Rattle.datalink_table.specs.declared.claims.Claim as claim_types;

use crate::claims::{Claim, ClaimKind, Named};
use crate::counts::Counts;
use crate::faults::ClaimFault;
use crate::limits::ITEMS_MAX;
use indexmap::IndexSet;
use std::alloc::{AllocError, Global};
use std::marker::Model;
use zn_base::{Text, ZoneName};
use zone_pools::{Grant, Owners};

/// Which items are declared, and which zone holds each. Contracts see `Shared`. Each item is found by one look-up.
#[derive(Drop)]
pub struct ClaimShared {
    declared: IndexSet<Claim>,
    counts: Counts,
    holders: Owners<Claim>,
}

impl Model for ClaimShared {
    ghost use Rattle.std.specs.Prelude.{◌≡◌};
    ghost use Rattle.std.specs.List.{count_by};
    ghost use Rattle.indexmap.specs.IndexSet.{spare};
    ghost use Rattle.datalink_table.specs.Claims.{is_of};
    ghost use Rattle.datalink_table.specs.Counts.{count_in};
    ghost use Rattle.datalink_table.specs.Shared.{Shared};
    ghost use Rattle.datalink_table.specs.declared.claims.ClaimKind as kinds;

    ghost Value = { Shared };

    ghost view = { λ s. record { declared = s.declared.keys; room = spare s.declared; holders = s.holders } };

    ghost invariant = { λ s. (kind : kinds.ClaimKind) → count_in kind s.counts ≡ count_by (is_of kind) s.declared.keys };
}

impl ClaimShared {
    /// No item is declared, and nobody holds any. It takes no memory.
    pub fn new(alloc: Global) -> Self
        ensures declared { result.declared ≡ [] }
        ensures holders { (c : claim_types.Claim) → holder c result ≡ None }
    {
        Self {
            declared: IndexSet::new(alloc),
            counts: Counts::new(),
            holders: Owners::new(alloc),
        }
    }

    /// The system restarts: the items stay declared, and nobody holds any. It takes no memory.
    pub fn restart(&mut self, alloc: Global)
        ensures declared { self.new.declared ≡ self.old.declared }
        ensures holders { (c : claim_types.Claim) → holder c self.new ≡ None }
    {
        self.holders = Owners::new(alloc);
    }

    // How many items of a kind are declared.
    fn count_of(&self, kind: ClaimKind) -> usize
        ensures { result ≡ count_of kind self.now }
    {
        self.counts.of(kind)
    }

    /// Whether an item is declared.
    pub fn is_declared(&self, kind: ClaimKind, item: &Text) -> bool
        ensures { result ≡ is_declared (claim_of kind item.now) self.now }
    {
        self.declared.contains(Named { kind, item })
    }

    /// Whether an item may be declared: it isn't declared yet, and fewer than 1,024 of its kind are.
    pub fn check_declare(&self, kind: ClaimKind, item: &Text) -> Result<(), ClaimFault>
        ensures { result ≡ declare_answer (claim_of kind item.now) self.now }
    {
        if self.is_declared(kind, item) {
            return Err(ClaimFault::Duplicate);
        }
        if self.count_of(kind) >= ITEMS_MAX {
            return Err(ClaimFault::TooMany(ITEMS_MAX));
        }
        Ok(())
    }

    /// Room for one more item, so that the next `declare_reserved` wants no memory.
    pub fn reserve_declared(&mut self) -> Result<(), AllocError>
        ensures alike { Alike self.old self.new }
        ensures room { OnOk result (0 < self.new.room) }
    {
        self.declared.reserve(1)
    }

    /// An item that may be declared is declared from now on. There is room for it, so this takes no memory.
    pub fn declare_reserved(&mut self, kind: ClaimKind, item: Text)
        requires allowed { declare_answer (claim_of kind item) self.old ≡ Ok tt }
        requires room { 0 < self.old.room }
        ensures { Declares (claim_of kind item) self.old self.new }
    {
        match self.declared.insert(Claim { kind, item }) {
            Ok(_) => self.counts.add(kind),
            Err(_) => unreachable!(),
        }
    }

    /// Declares an item, one that isn't declared yet, 1,024 of each kind at most.
    pub fn declare(&mut self, kind: ClaimKind, item: Text) -> Result<(), ClaimFault>
        ensures result { AnswersUnless ClaimFault.Memory (declare_answer (claim_of kind item) self.old) result }
        ensures declared { OnOk result (Declares (claim_of kind item) self.old self.new) }
        ensures alike { OnErr result (Alike self.old self.new) }
    {
        self.check_declare(kind, &item)?;
        self.reserve_declared()?;
        self.declare_reserved(kind, item);
        Ok(())
    }

    // Whether no other zone holds an item.
    fn may_hold(&self, claim: &Claim, zone: &ZoneName) -> bool
        ensures { result ≡ may_hold zone.now (holder claim.now self.now) }
    {
        match self.holders.owner(claim) {
            None => true,
            Some(owner) => zone == owner,
        }
    }

    // Whether a zone may claim an item: it is declared, and no other zone holds it.
    fn allows(&self, kind: ClaimKind, item: &Text, zone: &ZoneName) -> bool
        ensures { result ≡ allows zone.now (claim_of kind item.now) self.now }
    {
        match self.declared.get(Named { kind, item }) {
            None => false,
            Some(claim) => self.may_hold(claim, zone),
        }
    }

    /// What the pool of the item's kind says to a zone that asks for an item: yes, or its denial where the item isn't
    /// declared or another zone holds it. It takes no memory.
    pub fn ask(&self, kind: ClaimKind, item: &Text, zone: &ZoneName) -> Grant
        ensures { result ≡ ask_answer zone.now (claim_of kind item.now) self.now }
    {
        if self.allows(kind, item, zone) {
            Grant::Yes
        } else {
            Grant::Denied(kind.pool())
        }
    }

    /// Whether a zone may claim an item: it is declared, and no other zone holds it. `ClaimCell::reserve` and
    /// `ClaimCell::hold` do the rest.
    pub fn check_claim(
        &self,
        kind: ClaimKind,
        item: &Text,
        zone: &ZoneName,
    ) -> Result<(), ClaimFault>
        ensures { result ≡ claim_answer zone.now (claim_of kind item.now) self.now }
    {
        if self.allows(kind, item, zone) {
            Ok(())
        } else {
            Err(ClaimFault::Denied(kind.pool()))
        }
    }

    /// Whether a zone holds an item.
    pub(crate) fn is_held(&self, claim: &Claim) -> bool
        ensures { result ≡ is_held claim.now self.now }
    {
        self.holders.is_held(claim)
    }

    /// Room for one more item that is held.
    pub(crate) fn reserve_holder(&mut self) -> Result<(), AllocError>
        ensures alike { Alike self.old self.new }
        ensures room { OnOk result (0 < self.new.holders.room) }
    {
        self.holders.reserve()
    }

    /// What nobody holds is the zone's from now on.
    pub(crate) fn take(&mut self, claim: Claim, zone: ZoneName)
        requires free { holder claim self.old ≡ None }
        requires room { 0 < self.old.holders.room }
        ensures { Takes zone claim self.old self.new }
    {
        self.holders.take_reserved(claim, zone);
    }

    /// An item is nobody's from now on.
    pub(crate) fn give_back(&mut self, claim: &Claim)
        ensures freed { Frees (Some claim.now) self.old self.new }
        ensures room { self.old.holders.room ≤ self.new.holders.room }
    {
        self.holders.give_back(claim);
    }
}
