//! Links, addresses and datasets: each call where it does something, and each refusal. What is done goes through helpers
//! without contracts, so that no test's proof follows what a cell holds.
use datalink_table::{Claim, ClaimCell, ClaimFault, ClaimKind, ClaimShared, ITEMS_MAX};
use itoa::Buffer;
use std::alloc::Global;
use std::test::Fail;
use zn_base::{Text, ZoneName};
use zone_pools::{Grant, Pool};

// A zone with its cell.
struct Zone {
    name: ZoneName,
    cell: ClaimCell,
}

impl Drop for Zone {
    fn drop(self) {
        let Zone {
            name: _name,
            cell: _cell,
        } = self;
    }
}

// Two zones, and what both may ask.
struct Two {
    shared: ClaimShared,
    a: Zone,
    b: Zone,
}

impl Drop for Two {
    fn drop(self) {
        let Two {
            shared: _shared,
            a: _a,
            b: _b,
        } = self;
    }
}

#[derive(Clone, Copy)]
enum Who {
    A,
    B,
}

// What a call came to.
#[derive(Clone, Copy, Debug, PartialEq, Eq)]
enum Came {
    Done,
    NotSo,
    Fault(ClaimFault),
}

const DONE: Came = Came::Done;

const NO_LINK: Came = Came::Fault(ClaimFault::Denied(Pool::Links));

const NO_ADDRESS: Came = Came::Fault(ClaimFault::Denied(Pool::Addresses));

const NO_DATASET: Came = Came::Fault(ClaimFault::Denied(Pool::Datasets));

const DUPLICATE: Came = Came::Fault(ClaimFault::Duplicate);

const MEMORY: Came = Came::Fault(ClaimFault::Memory);

fn told(answer: Result<(), ClaimFault>) -> Came {
    match answer {
        Ok(()) => DONE,
        Err(fault) => Came::Fault(fault),
    }
}

fn holds(it: bool) -> Came {
    if it { DONE } else { Came::NotSo }
}

fn granted(grant: Grant) -> Came {
    match grant {
        Grant::Yes => DONE,
        Grant::Denied(pool) => Came::Fault(ClaimFault::Denied(pool)),
        _ => Came::NotSo,
    }
}

// Whether a claim is of an item, or there is none.
fn is_claim(claim: Option<&Claim>, wanted: Option<(ClaimKind, &[u8])>) -> bool {
    match (claim, wanted) {
        (None, None) => true,
        (Some(claim), Some((kind, item))) => claim.kind == kind && claim.item.bytes() == item,
        _ => false,
    }
}

impl Zone {
    fn new(alloc: Global, name: &[u8]) -> Result<Zone, Fail> {
        Ok(Zone {
            name: ZoneName::read(alloc, name)?,
            cell: ClaimCell::new(alloc),
        })
    }

    fn claim(
        &mut self,
        alloc: Global,
        shared: &mut ClaimShared,
        kind: ClaimKind,
        item: &[u8],
    ) -> Result<Came, Fail> {
        let item = Text::read(alloc, item)?;
        Ok(told(self.cell.claim(alloc, shared, kind, item, &self.name)))
    }

    // A claim in its two halves, of which the second wants no memory.
    fn claim_in_halves(
        &mut self,
        alloc: Global,
        shared: &mut ClaimShared,
        kind: ClaimKind,
        item: &[u8],
    ) -> Result<Came, Fail> {
        let item = Text::read(alloc, item)?;
        if let Err(fault) = shared.check_claim(kind, &item, &self.name) {
            return Ok(Came::Fault(fault));
        }
        let ready = self.cell.reserve(alloc, shared, kind, item, &self.name)?;
        self.cell.hold(shared, ready);
        Ok(DONE)
    }

    // Ends the latest claim, which is told before.
    fn release(&mut self, shared: &mut ClaimShared, wanted: Option<(ClaimKind, &[u8])>) -> Came {
        if !is_claim(self.cell.last(), wanted) {
            return Came::NotSo;
        }
        let claim = self.cell.release_last(shared);
        holds(is_claim(claim.as_ref(), wanted))
    }

    fn lists(&self, alloc: Global, kind: ClaimKind, items: &[&[u8]]) -> Result<bool, Fail> {
        let listed = self.cell.list(alloc, kind)?;
        if listed.len() != items.len() {
            return Ok(false);
        }
        for (item, wanted) in listed.as_slice().iter().zip(items) {
            if item.bytes() != *wanted {
                return Ok(false);
            }
        }
        Ok(true)
    }
}

fn declare(
    alloc: Global,
    shared: &mut ClaimShared,
    kind: ClaimKind,
    item: &[u8],
) -> Result<Came, Fail> {
    let item = Text::read(alloc, item)?;
    Ok(told(shared.declare(kind, item)))
}

// A declaration in its two halves, of which the second wants no memory.
fn declare_in_halves(
    alloc: Global,
    shared: &mut ClaimShared,
    kind: ClaimKind,
    item: &[u8],
) -> Result<Came, Fail> {
    let item = Text::read(alloc, item)?;
    if let Err(fault) = shared.check_declare(kind, &item) {
        return Ok(Came::Fault(fault));
    }
    shared.reserve_declared()?;
    shared.declare_reserved(kind, item);
    Ok(DONE)
}

// What is declared, what a zone does, or what is asked.
enum Step {
    Declare(ClaimKind, &'static [u8]),
    DeclareInHalves(ClaimKind, &'static [u8]),
    IsDeclared(ClaimKind, &'static [u8]),
    Ask(Who, ClaimKind, &'static [u8]),
    Claim(Who, ClaimKind, &'static [u8]),
    ClaimInHalves(Who, ClaimKind, &'static [u8]),
    Holds(Who, ClaimKind, &'static [u8]),
    IsEmpty(Who),
    Release(Who, Option<(ClaimKind, &'static [u8])>),
    Lists(Who, ClaimKind, &'static [&'static [u8]]),
}

impl Two {
    fn new(alloc: Global) -> Result<Box<Two>, Fail> {
        let a = Zone::new(alloc, b"a")?;
        let b = Zone::new(alloc, b"b")?;
        let two = Two {
            shared: ClaimShared::new(alloc),
            a,
            b,
        };
        Ok(Box::new(alloc, two)?)
    }

    fn zone(&self, who: Who) -> &Zone {
        match who {
            Who::A => &self.a,
            Who::B => &self.b,
        }
    }

    fn ask(&self, alloc: Global, who: Who, kind: ClaimKind, item: &[u8]) -> Result<Came, Fail> {
        let item = Text::read(alloc, item)?;
        Ok(granted(self.shared.ask(kind, &item, &self.zone(who).name)))
    }

    fn claim(
        &mut self,
        alloc: Global,
        who: Who,
        kind: ClaimKind,
        item: &[u8],
    ) -> Result<Came, Fail> {
        match who {
            Who::A => self.a.claim(alloc, &mut self.shared, kind, item),
            Who::B => self.b.claim(alloc, &mut self.shared, kind, item),
        }
    }

    fn claim_in_halves(
        &mut self,
        alloc: Global,
        who: Who,
        kind: ClaimKind,
        item: &[u8],
    ) -> Result<Came, Fail> {
        match who {
            Who::A => self.a.claim_in_halves(alloc, &mut self.shared, kind, item),
            Who::B => self.b.claim_in_halves(alloc, &mut self.shared, kind, item),
        }
    }

    fn release(&mut self, who: Who, wanted: Option<(ClaimKind, &[u8])>) -> Came {
        match who {
            Who::A => self.a.release(&mut self.shared, wanted),
            Who::B => self.b.release(&mut self.shared, wanted),
        }
    }
}

fn take(alloc: Global, two: &mut Two, step: &Step) -> Result<Came, Fail> {
    match step {
        Step::Declare(kind, item) => declare(alloc, &mut two.shared, *kind, item),
        Step::DeclareInHalves(kind, item) => {
            declare_in_halves(alloc, &mut two.shared, *kind, item)
        }
        Step::IsDeclared(kind, item) => {
            let item = Text::read(alloc, item)?;
            Ok(holds(two.shared.is_declared(*kind, &item)))
        }
        Step::Ask(who, kind, item) => two.ask(alloc, *who, *kind, item),
        Step::Claim(who, kind, item) => two.claim(alloc, *who, *kind, item),
        Step::ClaimInHalves(who, kind, item) => two.claim_in_halves(alloc, *who, *kind, item),
        Step::Holds(who, kind, item) => {
            let item = Text::read(alloc, item)?;
            Ok(holds(two.zone(*who).cell.holds(*kind, &item)))
        }
        Step::IsEmpty(who) => Ok(holds(two.zone(*who).cell.is_empty())),
        Step::Release(who, wanted) => Ok(two.release(*who, *wanted)),
        Step::Lists(who, kind, items) => Ok(holds(two.zone(*who).lists(alloc, *kind, items)?)),
    }
}

// The first step that comes to something else.
fn first_wrong(alloc: Global, steps: &[(Step, Came)]) -> Result<Option<usize>, Fail> {
    let mut two = Two::new(alloc)?;
    for (at, (it, came)) in steps.iter().enumerate() {
        if take(alloc, &mut two, it)? != *came {
            return Ok(Some(at));
        }
    }
    Ok(None)
}

const LINK: ClaimKind = ClaimKind::Link;

const ADDRESS: ClaimKind = ClaimKind::Address;

const DATASET: ClaimKind = ClaimKind::Dataset;

// A link and a dataset of one name are two items.
const DECLARED_ONCE: &[(Step, Came)] = &[
    (Step::IsDeclared(LINK, b"net0"), Came::NotSo),
    (Step::Declare(LINK, b"net0"), DONE),
    (Step::Declare(LINK, b"net0"), DUPLICATE),
    (Step::IsDeclared(LINK, b"net0"), DONE),
    (Step::IsDeclared(DATASET, b"net0"), Came::NotSo),
    (Step::DeclareInHalves(DATASET, b"net0"), DONE),
    (Step::DeclareInHalves(DATASET, b"net0"), DUPLICATE),
    (Step::Declare(ADDRESS, b"10.0.0.1"), DONE),
    (Step::Declare(ADDRESS, b"10.0.0.1"), DUPLICATE),
    (Step::Declare(ADDRESS, b"10.0.0.10"), DONE),
];

#[test]
fn items_are_declared_once(rt: HostRuntime) -> Result<(), Fail> {
    assert_eq!(rt; first_wrong(rt.alloc(), DECLARED_ONCE)?, None);
    Ok(())
}

const ONE_HOLDER: &[(Step, Came)] = &[
    (Step::Ask(Who::A, LINK, b"net0"), NO_LINK),
    (Step::Ask(Who::A, ADDRESS, b"10.0.0.1"), NO_ADDRESS),
    (Step::Ask(Who::A, DATASET, b"tank/a"), NO_DATASET),
    (Step::Claim(Who::A, LINK, b"net0"), NO_LINK),
    (Step::Claim(Who::A, ADDRESS, b"10.0.0.1"), NO_ADDRESS),
    (Step::ClaimInHalves(Who::A, DATASET, b"tank/a"), NO_DATASET),
    (Step::IsEmpty(Who::A), DONE),
    (Step::Declare(LINK, b"net0"), DONE),
    (Step::Declare(DATASET, b"net0"), DONE),
    (Step::Ask(Who::A, LINK, b"net0"), DONE),
    (Step::Claim(Who::A, LINK, b"net0"), DONE),
    (Step::IsEmpty(Who::A), Came::NotSo),
    (Step::Ask(Who::A, LINK, b"net0"), DONE),
    (Step::Ask(Who::B, LINK, b"net0"), NO_LINK),
    (Step::Claim(Who::B, LINK, b"net0"), NO_LINK),
    (Step::ClaimInHalves(Who::B, LINK, b"net0"), NO_LINK),
    (Step::IsEmpty(Who::B), DONE),
    (Step::Claim(Who::B, DATASET, b"net0"), DONE),
    (Step::Holds(Who::A, LINK, b"net0"), DONE),
    (Step::Holds(Who::A, DATASET, b"net0"), Came::NotSo),
    (Step::Holds(Who::B, DATASET, b"net0"), DONE),
    (Step::Release(Who::A, Some((LINK, b"net0"))), DONE),
    (Step::Holds(Who::A, LINK, b"net0"), Came::NotSo),
    (Step::ClaimInHalves(Who::B, LINK, b"net0"), DONE),
    (Step::Claim(Who::A, LINK, b"net0"), NO_LINK),
];

#[test]
fn an_item_has_one_holder(rt: HostRuntime) -> Result<(), Fail> {
    assert_eq!(rt; first_wrong(rt.alloc(), ONE_HOLDER)?, None);
    Ok(())
}

// What a zone holds already stays where it is.
const LATEST_FIRST: &[(Step, Came)] = &[
    (Step::Declare(LINK, b"net0"), DONE),
    (Step::Declare(LINK, b"net1"), DONE),
    (Step::Declare(ADDRESS, b"10.0.0.1"), DONE),
    (Step::Declare(DATASET, b"tank/a"), DONE),
    (Step::Release(Who::A, None), DONE),
    (Step::Claim(Who::A, LINK, b"net1"), DONE),
    (Step::Claim(Who::A, DATASET, b"tank/a"), DONE),
    (Step::ClaimInHalves(Who::A, LINK, b"net0"), DONE),
    (Step::Claim(Who::A, ADDRESS, b"10.0.0.1"), DONE),
    (Step::Claim(Who::A, LINK, b"net1"), DONE),
    (Step::ClaimInHalves(Who::A, DATASET, b"tank/a"), DONE),
    (Step::Lists(Who::A, LINK, &[b"net1", b"net0"]), DONE),
    (Step::Lists(Who::A, ADDRESS, &[b"10.0.0.1"]), DONE),
    (Step::Lists(Who::A, DATASET, &[b"tank/a"]), DONE),
    (Step::Lists(Who::B, LINK, &[]), DONE),
    (Step::Release(Who::A, Some((ADDRESS, b"10.0.0.1"))), DONE),
    (Step::Release(Who::A, Some((LINK, b"net0"))), DONE),
    (Step::Lists(Who::A, LINK, &[b"net1"]), DONE),
    (Step::Release(Who::A, Some((DATASET, b"tank/a"))), DONE),
    (Step::Release(Who::A, Some((LINK, b"net1"))), DONE),
    (Step::Release(Who::A, None), DONE),
    (Step::IsEmpty(Who::A), DONE),
    (Step::Claim(Who::B, LINK, b"net1"), DONE),
    (Step::Claim(Who::B, DATASET, b"tank/a"), DONE),
];

#[test]
fn the_latest_claim_is_released_first(rt: HostRuntime) -> Result<(), Fail> {
    assert_eq!(rt; first_wrong(rt.alloc(), LATEST_FIRST)?, None);
    Ok(())
}

// A name that is a number.
fn numbered(alloc: Global, number: usize) -> Result<Text, Fail> {
    let mut buffer = Buffer::new();
    Ok(Text::read(alloc, buffer.format(number).as_bytes())?)
}

// Whether 1,024 items of a kind are declared, and no more.
fn declares_all(alloc: Global, two: &mut Two, kind: ClaimKind) -> Result<bool, Fail> {
    for number in 0..ITEMS_MAX {
        two.shared.declare(kind, numbered(alloc, number)?)?;
    }
    let full = Came::Fault(ClaimFault::TooMany(1024));
    Ok(
        declare(alloc, &mut two.shared, kind, b"1024")? == full
            && declare_in_halves(alloc, &mut two.shared, kind, b"1024")? == full
            && declare(alloc, &mut two.shared, kind, b"7")? == DUPLICATE,
    )
}

// Whether a zone claims all of them, and gives them back, the latest first.
fn claims_all(alloc: Global, two: &mut Two, kind: ClaimKind) -> Result<bool, Fail> {
    for number in 0..ITEMS_MAX {
        let item = numbered(alloc, number)?;
        if two.claim(alloc, Who::A, kind, item.bytes())? != DONE {
            return Ok(false);
        }
    }
    for number in (0..ITEMS_MAX).rev() {
        let item = numbered(alloc, number)?;
        if two.release(Who::A, Some((kind, item.bytes()))) != DONE {
            return Ok(false);
        }
    }
    Ok(two.a.cell.is_empty())
}

#[test]
fn there_are_1024_items_of_a_kind_at_most(rt: HostRuntime) -> Result<(), Fail> {
    let mut two = Two::new(rt.alloc())?;
    for kind in [LINK, ADDRESS, DATASET] {
        assert!(rt; declares_all(rt.alloc(), &mut two, kind)?);
        assert!(rt; claims_all(rt.alloc(), &mut two, kind)?);
    }
    Ok(())
}

// Each of these does something, or finds all as before where memory runs out, and then does it.
fn declares(alloc: Global, two: &mut Two, kind: ClaimKind, number: usize) -> Result<bool, Fail> {
    let item = numbered(alloc, number)?;
    let came = declare(alloc, &mut two.shared, kind, item.bytes())?;
    if came != MEMORY {
        return Ok(came == DONE);
    }
    Ok(
        !two.shared.is_declared(kind, &item)
            && declare(alloc, &mut two.shared, kind, item.bytes())? == DONE,
    )
}

fn claims(alloc: Global, two: &mut Two, kind: ClaimKind, number: usize) -> Result<bool, Fail> {
    let item = numbered(alloc, number)?;
    let came = two.claim(alloc, Who::A, kind, item.bytes())?;
    if came != MEMORY {
        return Ok(came == DONE);
    }
    let same = !two.a.cell.holds(kind, &item)
        && two.ask(alloc, Who::B, kind, item.bytes())? == DONE;
    Ok(same && two.claim(alloc, Who::A, kind, item.bytes())? == DONE)
}

fn all_are_done(alloc: Global, two: &mut Two) -> Result<bool, Fail> {
    for number in 0..20 {
        if !declares(alloc, two, LINK, number)? || !claims(alloc, two, LINK, number)? {
            return Ok(false);
        }
    }
    match two.a.cell.list(alloc, LINK) {
        Ok(items) => Ok(items.len() == 20),
        Err(_) => Ok(two.a.cell.list(alloc, LINK)?.len() == 20),
    }
}

#[test]
fn want_of_memory_leaves_claims_as_they_are(rt: HostRuntime) -> Result<(), Fail> {
    let mut two = Two::new(rt.alloc())?;
    assert!(rt; all_are_done(rt.alloc(), &mut two)?);
    Ok(())
}
