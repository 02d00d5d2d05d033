//! What one zone holds.
ghost use Rattle.std.specs.Prelude.{◌≡◌, ◌≤◌, ◌<◌, ◌++◌, ◌∷◌, [], List, false, true, IfErr, IfNone, IfOk, IfSome, OnErr, OnOk, if◌then◌else◌};
ghost use Rattle.zn_base.specs.Answers.{AnswersUnless};
ghost use Rattle.zone_pools.specs.Firsts.{is_nil};
ghost use Rattle.datalink_table.specs.declared.faults.ClaimFault.TheVariants.{Memory};
ghost use Rattle.datalink_table.specs.Claims.{claim_of, claiming, holds, is_of, items_of};
ghost use Rattle.datalink_table.specs.Shared.{Alike, Frees, Takes, allows, claim_answer};
ghost use Rattle.datalink_table.specs.declared.claims.Claim as claim_types;

use crate::claims::{Claim, ClaimKind};
use crate::faults::ClaimFault;
use crate::shared::ClaimShared;
use std::alloc::{AllocError, Global};
use std::marker::Model;
use zn_base::{Listing, Text, ZoneName};

/// What one zone holds, each item once, in the order of its claims. Contracts see `Cell`. It has no zone's name: a call that
/// makes the shared part name the zone is told the name. A cell and the shared part agree where the shared part names the
/// zone as the holder of just what the cell has, by `Agree`.
pub struct ClaimCell {
    claims: Vec<Claim>,
}

impl Drop for ClaimCell {
    fn drop(self) {
        let ClaimCell { claims: _claims } = self;
    }
}

impl Model for ClaimCell {
    ghost use Rattle.std.specs.Prelude.{◌≡◌, ◌-◌, true, vec_capacity, vec_len};
    ghost use Rattle.datalink_table.specs.Claims.{Cell, each_once};

    ghost Value = { Cell };

    ghost view = { λ c. record { claims = c.claims.items; room = vec_capacity c.claims - vec_len c.claims } };

    ghost invariant = { λ c. each_once c.claims.items ≡ true };
}

/// A claim that is ready to be made, with the copies that it takes: the cell keeps one, and the shared part the other with
/// the zone's name. Contracts see the claim, and the zone that makes it.
#[derive(Drop)]
pub struct Ready {
    claim: Claim,
    copy: Claim,
    zone: ZoneName,
}

impl Model for Ready {
    ghost use Rattle.std.specs.Prelude.{◌≡◌};
    ghost use Rattle.datalink_table.specs.Claims.{Readied};

    ghost Value = { Readied };

    ghost view = { λ r. record { claim = r.claim; zone = r.zone } };

    ghost invariant = { λ r. r.copy ≡ r.claim };
}

impl Ready {
    fn new(alloc: Global, claim: Claim, zone: &ZoneName) -> Result<Self, AllocError>
        ensures { IfOk result (λ ready. ready ≡ record { claim = claim; zone = zone.now }) }
    {
        let copy = claim.copy(alloc)?;
        let zone = zone.copy(alloc)?;
        Ok(Ready { claim, copy, zone })
    }
}

impl ClaimCell {
    /// A zone that holds nothing. It takes no memory.
    pub fn new(alloc: Global) -> Self
        ensures { result.claims ≡ [] }
    {
        Self {
            claims: Vec::new(alloc),
        }
    }

    /// Whether the zone holds nothing.
    pub fn is_empty(&self) -> bool
        ensures { result ≡ is_nil self.now.claims }
    {
        self.claims.is_empty()
    }

    /// Whether the zone holds an item. All its claims are looked at.
    pub fn holds(&self, kind: ClaimKind, item: &Text) -> bool
        ensures { result ≡ holds (claim_of kind item.now) self.now.claims }
    {
        self.claims
            .iter()
            .any(|claim| kind == claim.kind && *item == claim.item)
    }

    /// The zone's latest claim, which `release_last` ends, or nothing where the zone holds nothing.
    pub fn last(&self) -> Option<&Claim>
        ensures last { IfSome result (λ claim. (before : List claim_types.Claim) × (self.now.claims ≡ before ++ claim.now ∷ [])) }
        ensures nothing { IfNone result (self.now.claims ≡ []) }
    {
        self.claims.last()
    }

    // Room for one more claim, here and in the shared part.
    fn make_room(&mut self, shared: &mut ClaimShared) -> Result<(), AllocError>
        ensures room { OnOk result (0 < self.new.room) }
        ensures shared_room { OnOk result (0 < shared.new.holders.room) }
        ensures same { self.new.claims ≡ self.old.claims }
        ensures alike { Alike shared.old shared.new }
    {
        self.claims.reserve(1)?;
        shared.reserve_holder()
    }

    /// The copies that a claim takes, with room in the cell and in the shared part, so that the next `hold` wants no memory.
    /// What anyone holds stays as it is, whether or not memory runs out.
    pub fn reserve(
        &mut self,
        alloc: Global,
        shared: &mut ClaimShared,
        kind: ClaimKind,
        item: Text,
        zone: &ZoneName,
    ) -> Result<Ready, AllocError>
        ensures claim { IfOk result (λ ready. ready.claim ≡ claim_of kind item) }
        ensures zone { IfOk result (λ ready. ready.zone ≡ zone.now) }
        ensures room { OnOk result (0 < self.new.room) }
        ensures shared_room { OnOk result (0 < shared.new.holders.room) }
        ensures same { self.new.claims ≡ self.old.claims }
        ensures alike { Alike shared.old shared.new }
    {
        self.make_room(shared)?;
        Ready::new(alloc, Claim { kind, item }, zone)
    }

    // The latest claim from now on, of an item that the zone doesn't hold yet.
    fn push(&mut self, claim: Claim)
        requires fresh { holds claim self.old.claims ≡ false }
        requires room { 0 < self.old.room }
        ensures { self.new.claims ≡ self.old.claims ++ claim ∷ [] }
    {
        match self.claims.push(claim) {
            Ok(()) => {}
            Err(_) => unreachable!(),
        }
    }

    /// A zone claims an item that it may claim: it holds it from now on. What the cell holds already stays where it is,
    /// whatever the shared part says. All its claims are looked at. There is room, so this takes no memory.
    #[tactic(auto, using(crate::proofs::Sharing::held_already))]
    pub fn hold(&mut self, shared: &mut ClaimShared, ready: Ready)
        requires allowed { allows ready.zone ready.claim shared.old ≡ true }
        requires room { 0 < self.old.room }
        requires shared_room { 0 < shared.old.holders.room }
        ensures claimed { self.new.claims ≡ claiming (holds ready.claim self.old.claims) ready.claim self.old.claims }
        ensures taken { Takes ready.zone ready.claim shared.old shared.new }
    {
        let Ready { claim, copy, zone } = ready;
        if !shared.is_held(&claim) {
            shared.take(copy, zone);
        }
        if !self.holds(claim.kind, &claim.item) {
            self.push(claim);
        }
    }

    /// A zone claims an item: refused where the item isn't declared or another zone holds it. What the zone holds already
    /// stays where it is.
    pub fn claim(
        &mut self,
        alloc: Global,
        shared: &mut ClaimShared,
        kind: ClaimKind,
        item: Text,
        zone: &ZoneName,
    ) -> Result<(), ClaimFault>
        ensures result { AnswersUnless ClaimFault.Memory (claim_answer zone.now (claim_of kind item) shared.old) result }
        ensures claimed { OnOk result (self.new.claims ≡ claiming (holds (claim_of kind item) self.old.claims) (claim_of kind item) self.old.claims) }
        ensures taken { OnOk result (Takes zone.now (claim_of kind item) shared.old shared.new) }
        ensures same { OnErr result (self.new.claims ≡ self.old.claims) }
        ensures alike { OnErr result (Alike shared.old shared.new) }
    {
        shared.check_claim(kind, &item, zone)?;
        let ready = self.reserve(alloc, shared, kind, item, zone)?;
        self.hold(shared, ready);
        Ok(())
    }

    /// The zone's latest claim ends, and is answered: its item is nobody's from now on. Nothing is answered, and nothing
    /// changes, where the zone holds nothing. It takes no memory.
    pub fn release_last(&mut self, shared: &mut ClaimShared) -> Option<Claim>
        ensures last { IfSome result (λ claim. self.old.claims ≡ self.new.claims ++ claim ∷ []) }
        ensures once { IfSome result (λ claim. holds claim self.new.claims ≡ false) }
        ensures nothing { IfNone result ((self.old.claims ≡ []) × (self.new.claims ≡ [])) }
        ensures freed { Frees result shared.old shared.new }
        ensures room { self.old.room ≤ self.new.room }
        ensures shared_room { shared.old.holders.room ≤ shared.new.holders.room }
    {
        let claim = self.claims.pop()?;
        shared.give_back(&claim);
        Some(claim)
    }

    /// The items of a kind that the zone holds, in the order of its claims.
    pub fn list(&self, alloc: Global, kind: ClaimKind) -> Result<Listing<Text>, ClaimFault>
        ensures items { IfOk result (λ items. items ≡ items_of kind self.now.claims) }
        ensures memory { IfErr result (λ e. e ≡ Memory) }
    {
        let mut items = Listing::new(alloc);
        for claim in &self.claims {
            if claim.kind == kind {
                items.push(claim.item.copy(alloc)?)?;
            }
        }
        Ok(items)
    }
}
