//! Brands without their hooks.
ghost use Rattle.std.specs.Prelude.{◌≡◌, [], option_map};
ghost use Rattle.brand_hooks.specs.Brands.{answer_of, brand_at, place_of, tabled_names};

use crate::change::Change;
use crate::table::{HookAnswer, HookTable};
use std::alloc::Global;
use std::marker::Model;
use zn_base::Text;

/// A brand without its hook: its name, and what its hook answers. Contracts see `Tabled`.
#[derive(Drop)]
pub(crate) struct BrandTable {
    pub(crate) name: Text,
    pub(crate) table: HookTable,
}

impl Model for BrandTable {
    ghost use Rattle.brand_hooks.specs.Brands.{Tabled};

    ghost Value = { Tabled };

    ghost view = { λ b. record { name = b.name; table = b.table } };
}

/// Brands without their hooks: their names, and what their hooks answer. Contracts see their list.
#[derive(Drop)]
pub struct BrandTables {
    list: Vec<BrandTable>,
    names: Vec<Text>,
}

impl Model for BrandTables {
    ghost use Rattle.std.specs.Prelude.{◌≡◌, List};
    ghost use Rattle.brand_hooks.specs.Brands.{Tabled, tabled_names};

    ghost Value = { List Tabled };

    ghost view = { λ b. b.list.items };

    ghost invariant = { λ b. b.names.items ≡ tabled_names b.list.items };
}

impl BrandTables {
    /// No brands. It takes no memory.
    pub fn none(alloc: Global) -> BrandTables
        ensures { result ≡ [] }
    {
        BrandTables {
            list: Vec::new(alloc),
            names: Vec::new(alloc),
        }
    }

    // The brands, with their names beside.
    pub(crate) fn of(list: Vec<BrandTable>, names: Vec<Text>) -> BrandTables
        requires { names.items ≡ tabled_names list.items }
        ensures { result ≡ list.items }
    {
        BrandTables { list, names }
    }

    /// The names of the brands, in their order.
    pub fn names(&self) -> &[Text]
        ensures { result.now ≡ tabled_names self.now }
    {
        &self.names
    }

    /// The place of the first brand of a name, from 0. It takes no memory.
    pub fn place(&self, name: &[u8]) -> Option<usize>
        ensures { result ≡ place_of name.now self.now }
    {
        self.list
            .iter()
            .position(|brand| name == brand.name.bytes())
    }

    fn at(&self, place: Option<usize>) -> Option<&BrandTable>
        ensures { option_map (λ brand. brand.now) result ≡ brand_at self.now place }
    {
        self.list.get(place?)
    }

    /// What the brand at a place answers of a change: its table's entry, and that the change proceeds where no brand
    /// stands there. It takes no memory.
    pub fn answer(&self, brand: Option<usize>, change: &Change) -> HookAnswer
        ensures { result ≡ answer_of self.now brand change.now }
    {
        match self.at(brand) {
            Some(brand) => brand.table.at(change),
            None => HookAnswer::Proceed,
        }
    }
}
