//! Brands as a program makes them: functions are their hooks.
ghost use Rattle.std.specs.Prelude.{◌≡◌, true};
ghost use Rattle.brand_hooks.specs.Hooks.{AllFollow};
ghost use Rattle.brand_hooks.specs.Tables.{answer_at, proceeding, with_answer};
ghost use Rattle.brand_hooks.specs.declared.change.ChangeKind.TheVariants.{Clone};
ghost use Rattle.brand_hooks.specs.declared.table.HookAnswer.TheVariants.{Proceed, Refuse};

use brand_hooks::{
    Brand, BrandFault, BrandTables, Brands, Change, ChangeKind, HookAnswer, HookTable,
};
use std::alloc::Global;
use std::test::Fail;

type Hook = fn(&Change) -> HookAnswer;

const KINDS: [ChangeKind; 8] = [
    ChangeKind::Install,
    ChangeKind::Uninstall,
    ChangeKind::Clone,
    ChangeKind::Attach,
    ChangeKind::Detach,
    ChangeKind::Ready,
    ChangeKind::Boot,
    ChangeKind::Halt,
];

const BEFORE_CLONE: Change = Change {
    before: true,
    kind: ChangeKind::Clone,
};

fn proceeds(_change: &Change) -> HookAnswer
    ensures { result ≡ Proceed }
{
    HookAnswer::Proceed
}

fn refuses_clones(change: &Change) -> HookAnswer
    ensures { result ≡ answer_at change.now (with_answer (record { before = true; kind = Clone }) (Refuse 7) proceeding) }
{
    match change {
        Change {
            before: true,
            kind: ChangeKind::Clone,
        } => HookAnswer::Refuse(7),
        _ => HookAnswer::Proceed,
    }
}

fn found_answer<F: Fn(&Change) -> HookAnswer>(
    brands: &Brands<F>,
    name: &[u8],
    change: &Change,
) -> Option<HookAnswer>
    requires { AllFollow F.Fn brands.now }
{
    Some(brands.find(name)?.ask(change))
}

// The place of a brand, and what it answers: found by its name and asked, asked at its place, and by the tables alone.
#[derive(Clone, Copy)]
struct Answers {
    place: Option<usize>,
    found: Option<HookAnswer>,
    asked: HookAnswer,
    tabled: HookAnswer,
}

impl Answers {
    fn are(&self, place: usize, answer: HookAnswer) -> bool {
        self.place == Some(place)
            && self.found == Some(answer)
            && self.asked == answer
            && self.tabled == answer
    }
}

// What the brand `ipkg`, which lets all changes proceed, or `lx`, which refuses clones, answers.
fn answers_of(alloc: Global, name: &[u8], change: &Change) -> Result<Answers, BrandFault> {
    let ipkg: Hook = proceeds;
    let lx: Hook = refuses_clones;
    let clones = HookTable::proceed().with(&BEFORE_CLONE, HookAnswer::Refuse(7));
    let ipkg = Brand::new(alloc, b"ipkg", HookTable::proceed(), ipkg)?;
    let lx = Brand::new(alloc, b"lx", clones, lx)?;
    let Ok(list) = vec![in alloc; ipkg, lx] else {
        return Err(BrandFault::Memory);
    };
    let brands = Brands::new(alloc, list)?;
    let tables = brands.tables(alloc)?;
    let place = tables.place(name);
    Ok(Answers {
        place,
        found: found_answer(&brands, name, change),
        asked: brands.answer(place, change),
        tabled: tables.answer(place, change),
    })
}

#[test]
fn hooks_answer_their_tables(rt: HostRuntime) -> Result<(), BrandFault> {
    let alloc = rt.alloc();
    for kind in KINDS {
        for before in [true, false] {
            let change = Change { before, kind };
            let ipkg = answers_of(alloc, b"ipkg", &change)?;
            assert!(rt; ipkg.are(0, HookAnswer::Proceed));
            let lx = answers_of(alloc, b"lx", &change)?;
            let refused = before && matches!(kind, ChangeKind::Clone);
            assert!(rt; lx.are(1, HookAnswer::Refuse(7)) == refused);
            assert!(rt; lx.are(1, HookAnswer::Proceed) != refused);
            let kvm = answers_of(alloc, b"kvm", &change)?;
            assert!(rt; kvm.place.is_none());
            assert!(rt; kvm.found.is_none());
            assert!(rt; kvm.asked == HookAnswer::Proceed);
            assert!(rt; kvm.tabled == HookAnswer::Proceed);
        }
    }
    Ok(())
}

fn told(alloc: Global, names: &[&[u8]]) -> Result<usize, BrandFault> {
    let mut list = Vec::new(alloc);
    for name in names {
        let hook = |_change: &Change| HookAnswer::Proceed;
        let brand = Brand::new(alloc, name, HookTable::proceed(), hook)?;
        if list.push(brand).is_err() {
            return Err(BrandFault::Memory);
        }
    }
    Ok(Brands::new(alloc, list)?.names().len())
}

#[test]
fn names_are_words_and_differ(rt: HostRuntime) -> Result<(), Fail> {
    let cases: &[(&[&[u8]], Result<usize, BrandFault>)] = &[
        (&[], Ok(0)),
        (&[b"ipkg", b"lx", b"SUNW-0_9"], Ok(3)),
        (&[b"abcdefghijklmnopqrstuvwxyz012345"], Ok(1)),
        (
            &[b"abcdefghijklmnopqrstuvwxyz0123456"],
            Err(BrandFault::BadBrandName),
        ),
        (&[b""], Err(BrandFault::BadBrandName)),
        (&[b"solaris.10"], Err(BrandFault::BadBrandName)),
        (
            &[b"a", b"b", b"c", b"b", b"a"],
            Err(BrandFault::SameBrand(3)),
        ),
    ];
    for (names, wanted) in cases {
        assert!(rt; told(rt.alloc(), names) == *wanted);
    }
    let message = BrandFault::SameBrand(3).to_string(rt.alloc())?;
    assert_eq!(rt; message.as_str(), "55 SameBrand 3");
    Ok(())
}

#[test]
fn a_brand_is_asked_at_its_place_alone(rt: HostRuntime) -> Result<(), BrandFault> {
    let alloc = rt.alloc();
    let clones = HookTable::proceed().with(&BEFORE_CLONE, HookAnswer::Refuse(7));
    let copy = clones.copy();
    assert!(rt; copy.at(&BEFORE_CLONE) == HookAnswer::Refuse(7));
    let lx: Hook = refuses_clones;
    let lx = Brand::new(alloc, b"lx", copy, lx)?;
    let Ok(list) = vec![in alloc; lx] else {
        return Err(BrandFault::Memory);
    };
    let brands = Brands::new(alloc, list)?;
    let tables = brands.tables(alloc)?;
    let none = BrandTables::none(alloc);
    assert!(rt; tables.names().len() == 1);
    assert!(rt; tables.names()[0].bytes() == b"lx".as_slice());
    assert!(rt; none.names().is_empty());
    assert!(rt; none.place(b"lx").is_none());
    let rows = [
        (Some(0), HookAnswer::Refuse(7)),
        (Some(1), HookAnswer::Proceed),
        (Some(usize::MAX), HookAnswer::Proceed),
        (None, HookAnswer::Proceed),
    ];
    for (place, answer) in rows {
        assert!(rt; brands.answer(place, &BEFORE_CLONE) == answer);
        assert!(rt; tables.answer(place, &BEFORE_CLONE) == answer);
        assert!(rt; none.answer(place, &BEFORE_CLONE) == HookAnswer::Proceed);
    }
    Ok(())
}
