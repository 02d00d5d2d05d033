//! The program `zones`: its words, its two brands, its standard streams and the file of its store, handed to `zones_run`, or
//! where sessions are to run at once to `zones_live`, whose answer is the exit status.
#![tactic(auto)]

ghost use Rattle.std.specs.Prelude.{◌≡◌, ◌∷◌, [], IfOk, IsOkUnless, Ok, codes, true};
ghost use Rattle.zn_base.specs.Answers.{AnswersUnless};
ghost use Rattle.brand_hooks.specs.Hooks.{AllFollow, AnswersTable};
ghost use Rattle.brand_hooks.specs.Tables.{answer_at, proceeding, with_answer};
ghost use Rattle.brand_hooks.specs.declared.change.ChangeKind.TheVariants.{Clone};
ghost use Rattle.brand_hooks.specs.declared.table.HookAnswer.TheVariants.{Proceed, Refuse};

use brand_hooks::{Brand, BrandFault, Brands, Change, ChangeKind, HookAnswer, HookTable};
use std::alloc::{AllocError, Global};
use std::env;
use std::io::ErrorKind;
use std::process::ExitCode;
use std::sync::Wait;
use zn_io::{FileDisk, StdSink, StdSource};
use zone_threads::Gate;
use zones_live::run_live;
use zones_run::{RunFault, fail, run_zones};

// The file of the store, in the current folder.
const STORE_NAME: &str = "zones.store";

type Hook = fn(&Change) -> HookAnswer;

const BEFORE_CLONE: Change = Change {
    before: true,
    kind: ChangeKind::Clone,
};

// Nobody waits before an event.
#[derive(Drop)]
struct OpenGate;

impl Gate for OpenGate {
    fn pass<W: Wait>(&self, _rt: &W, _place: u32) {}
}

// The hook of the brand `ipkg`: each change proceeds.
fn proceeds(_change: &Change) -> HookAnswer
    ensures { result ≡ Proceed }
{
    HookAnswer::Proceed
}

// The hook of the brand `lx`: no zone is made as a copy of another, by code 7, and each other change proceeds.
fn refuses_clones(change: &Change) -> HookAnswer
    ensures { result ≡ answer_at change.now (with_answer (record { before = true; kind = Clone }) (Refuse 7) proceeding) }
{
    match change {
        Change {
            before: true,
            kind: ChangeKind::Clone,
        } => HookAnswer::Refuse(7),
        _ => HookAnswer::Proceed,
    }
}

// A list of two brands.
fn pair<F: Fn(&Change) -> HookAnswer>(
    alloc: Global,
    first: Brand<F>,
    second: Brand<F>,
) -> Result<Vec<Brand<F>>, BrandFault>
    ensures list { IfOk result (λ list. list.items ≡ first ∷ second ∷ []) }
    ensures memory { IsOkUnless result BrandFault.Memory }
{
    let mut list = Vec::new(alloc);
    if list.push(first).is_err() || list.push(second).is_err() {
        return Err(BrandFault::Memory);
    }
    Ok(list)
}

// The brands that there are, `ipkg` and `lx`, of their hooks.
fn make_brands<F: Fn(&Change) -> HookAnswer>(
    alloc: Global,
    ipkg: F,
    lx: F,
) -> Result<Brands<F>, BrandFault>
    requires ipkg { AnswersTable F.Fn ipkg proceeding }
    requires lx { AnswersTable F.Fn lx (with_answer (record { before = true; kind = Clone }) (Refuse 7) proceeding) }
    ensures follow { IfOk result (AllFollow F.Fn) }
    ensures made { AnswersUnless BrandFault.Memory (Ok (record { name = codes "ipkg"; table = proceeding; hook = ipkg }
        ∷ record { name = codes "lx"; table = with_answer (record { before = true; kind = Clone }) (Refuse 7) proceeding; hook = lx } ∷ [])) result }
{
    let clones = HookTable::proceed().with(&BEFORE_CLONE, HookAnswer::Refuse(7));
    let ipkg = Brand::new(alloc, b"ipkg", HookTable::proceed(), ipkg)?;
    let lx = Brand::new(alloc, b"lx", clones, lx)?;
    let list = pair(alloc, ipkg, lx)?;
    Brands::new(alloc, list)
}

// The words after the program's name. Words that can't be read, as those that are no UTF-8, are none.
fn read_words(rt: &HostRuntime) -> Result<Vec<String>, AllocError> {
    let mut words = Vec::new(rt.alloc());
    match env::args(rt) {
        Ok(all) => {
            for word in all.skip(1) {
                words.push(word)?;
            }
            Ok(words)
        }
        Err(fault) if fault.kind() == ErrorKind::OutOfMemory => Err(AllocError),
        Err(_) => Ok(words),
    }
}

fn main(rt: HostRuntime) -> ExitCode {
    let mut source = StdSource::new(rt.stdin());
    let mut out = StdSink::new(rt.stdout());
    let mut err = StdSink::new(rt.stderr());
    let Ok(words) = read_words(&rt) else {
        return ExitCode::from(fail(&mut err, RunFault::Memory));
    };
    let ipkg: Hook = proceeds;
    let lx: Hook = refuses_clones;
    let Ok(brands) = make_brands(rt.alloc(), ipkg, lx) else {
        return ExitCode::from(fail(&mut err, RunFault::Memory));
    };
    let disk = FileDisk::new(&rt, STORE_NAME);
    let is_live = matches!(words.first(), Some(word) if word.as_str() == "live");
    let (status, _) = if is_live {
        run_live(
            &rt,
            rt.alloc(),
            &words,
            &mut source,
            &mut out,
            &mut err,
            disk,
            &brands,
            &OpenGate,
        )
    } else {
        run_zones(
            rt.alloc(),
            &words,
            &mut source,
            &mut out,
            &mut err,
            disk,
            &brands,
        )
    };
    ExitCode::from(status)
}
