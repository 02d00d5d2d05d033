//! Brands by their names.
ghost use Rattle.std.specs.Prelude.{◌≡◌, ◌<◌, IfOk, IfSome, bytes_eq, length, option_map};
ghost use Rattle.std.specs.List.{list_any};
ghost use Rattle.zn_base.specs.Answers.{AnswersUnless};
ghost use Rattle.brand_hooks.specs.Brands.{answer_of, brand_at, brand_named, brands_of, first_again, is_again, names_of, tables_of};
ghost use Rattle.brand_hooks.specs.Hooks.{AllFollow, AskedAt, Follows};

use crate::brand::Brand;
use crate::change::Change;
use crate::fault::BrandFault;
use crate::table::HookAnswer;
use crate::tables::{BrandTable, BrandTables};
use std::alloc::{AllocError, Global};
use std::marker::Model;
use zn_base::Text;

/// Brands, each of another name. Contracts see their list.
#[derive(Drop)]
pub struct Brands<F> {
    list: Vec<Brand<F>>,
    names: Vec<Text>,
}

impl<F> Model for Brands<F> {
    ghost use Rattle.std.specs.Prelude.{◌≡◌, List};
    ghost use Rattle.brand_hooks.specs.Brands.{Hooked, names_of};

    ghost Value = { List (Hooked F) };

    ghost view = { λ b. b.list.items };

    ghost invariant = { λ b. b.names.items ≡ names_of b.list.items };
}

fn copy_names<F>(alloc: Global, list: &[Brand<F>]) -> Result<Vec<Text>, AllocError>
    ensures { IfOk result (λ names. names.items ≡ names_of list.now) }
{
    let mut names = Vec::with_capacity(alloc, list.len())?;
    for brand in list {
        names.push(brand.name().copy(alloc)?)?;
    }
    Ok(names)
}

fn copy_tables<F>(alloc: Global, list: &[Brand<F>]) -> Result<Vec<BrandTable>, AllocError>
    ensures { IfOk result (λ tables. tables.items ≡ tables_of list.now) }
{
    let mut tables = Vec::with_capacity(alloc, list.len())?;
    for brand in list {
        tables.push(brand.tabled(alloc)?)?;
    }
    Ok(tables)
}

fn is_among(names: &[Text], name: &Text) -> bool
    ensures { result ≡ list_any (bytes_eq name.now) names.now }
{
    names.iter().any(|known| name == known)
}

// Whether an earlier name is that at a place.
fn is_again(names: &[Text], place: usize) -> bool
    requires { place < length names.now }
    ensures { result ≡ is_again names.now place }
{
    is_among(&names[..place], &names[place])
}

fn first_again(names: &[Text]) -> Option<usize>
    ensures { result ≡ first_again names.now }
{
    (0..names.len()).find(|place| is_again(names, *place))
}

impl<F: Fn(&Change) -> HookAnswer> Brands<F> {
    /// The brands, where no two have one name.
    pub fn new(alloc: Global, list: Vec<Brand<F>>) -> Result<Brands<F>, BrandFault>
        ensures result { AnswersUnless BrandFault.Memory (brands_of list.items) result }
        ensures follow { AllFollow F.Fn list.items → IfOk result (AllFollow F.Fn) }
    {
        let names = copy_names(alloc, &list)?;
        match first_again(&names) {
            Some(place) => Err(BrandFault::SameBrand(place)),
            None => Ok(Brands { list, names }),
        }
    }

    /// The names of the brands, in their order.
    pub fn names(&self) -> &[Text]
        ensures { result.now ≡ names_of self.now }
    {
        &self.names
    }

    /// The brand of a name. It takes no memory.
    pub fn find(&self, name: &[u8]) -> Option<&Brand<F>>
        ensures found { option_map (λ brand. brand.now) result ≡ brand_named name.now self.now }
        ensures follows { AllFollow F.Fn self.now → IfSome result (λ brand. Follows F.Fn brand.now) }
    {
        self.list.iter().find(|brand| name == brand.name().bytes())
    }

    /// The brands without their hooks.
    #[tactic(auto, using(crate::proofs::Tabled::names_of_tables))]
    pub fn tables(&self, alloc: Global) -> Result<BrandTables, AllocError>
        ensures { IfOk result (λ t. t ≡ tables_of self.now) }
    {
        let tables = copy_tables(alloc, &self.list)?;
        let names = copy_names(alloc, &self.list)?;
        Ok(BrandTables::of(tables, names))
    }

    fn at(&self, place: Option<usize>) -> Option<&Brand<F>>
        ensures found { option_map (λ brand. brand.now) result ≡ brand_at self.now place }
        ensures follows { AllFollow F.Fn self.now → IfSome result (λ brand. Follows F.Fn brand.now) }
    {
        self.list.get(place?)
    }

    /// Asks the hook of the brand at a place, and answers what it does. Where no brand stands there the change proceeds.
    /// It takes no memory.
    #[tactic(auto, using(crate::proofs::Tabled::tabled_at))]
    pub fn answer(&self, brand: Option<usize>, change: &Change) -> HookAnswer
        requires { AllFollow F.Fn self.now }
        ensures answer { result ≡ answer_of (tables_of self.now) brand change.now }
        ensures asked { AskedAt F.Fn self.now brand change.now result }
    {
        match self.at(brand) {
            Some(brand) => brand.ask(change),
            None => HookAnswer::Proceed,
        }
    }
}
