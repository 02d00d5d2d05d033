//! A brand with its hook.
ghost use Rattle.std.specs.Prelude.{◌≡◌, IfOk};
ghost use Rattle.std.specs.Fn.{FnReturnsAt};
ghost use Rattle.std.specs.List.{list_all};
ghost use Rattle.zn_base.specs.Answers.{AnswersUnless};
ghost use Rattle.brand_hooks.specs.Brands.{brand_of, is_brand_byte, is_brand_name, tabled};
ghost use Rattle.brand_hooks.specs.Hooks.{AnswersTable, Follows};
ghost use Rattle.brand_hooks.specs.Tables.{answer_at};

use crate::change::Change;
use crate::fault::BrandFault;
use crate::table::{HookAnswer, HookTable};
use crate::tables::BrandTable;
use std::alloc::{AllocError, Global};
use std::marker::Model;
use zn_base::Text;

/// A brand: its name, what its hook answers, and the hook. Contracts see `Hooked`, and say by `Follows` that the hook
/// answers the table.
#[derive(Drop)]
pub struct Brand<F> {
    name: Text,
    table: HookTable,
    hook: F,
}

impl<F> Model for Brand<F> {
    ghost use Rattle.brand_hooks.specs.Brands.{Hooked};

    ghost Value = { Hooked F };

    ghost view = { λ b. record { name = b.name; table = b.table; hook = b.hook } };
}

fn is_brand_byte(byte: u8) -> bool
    ensures { result ≡ is_brand_byte byte }
{
    byte.is_ascii_alphanumeric() || byte == b'_' || byte == b'-'
}

fn all_brand_bytes(name: &[u8]) -> bool
    ensures { result ≡ list_all is_brand_byte name.now }
{
    name.iter().all(|byte| is_brand_byte(*byte))
}

fn is_brand_name(name: &[u8]) -> bool
    ensures { result ≡ is_brand_name name.now }
{
    1 <= name.len() && name.len() <= 32 && all_brand_bytes(name)
}

impl<F> Brand<F> {
    /// The brand's name.
    pub fn name(&self) -> &Text
        ensures { result.now ≡ self.now.name }
    {
        &self.name
    }

    // The brand without its hook.
    pub(crate) fn tabled(&self, alloc: Global) -> Result<BrandTable, AllocError>
        ensures { IfOk result (λ t. t ≡ tabled self.now) }
    {
        Ok(BrandTable {
            name: self.name.copy(alloc)?,
            table: self.table.copy(),
        })
    }
}

impl<F: Fn(&Change) -> HookAnswer> Brand<F> {
    /// A brand of a name, 1 to 32 letters, digits, `_` or `-`, and of a hook that may be asked of each change and answers
    /// what the table says.
    #[tactic(auto, using(crate::proofs::Names::brand_text))]
    pub fn new(
        alloc: Global,
        name: &[u8],
        table: HookTable,
        hook: F,
    ) -> Result<Brand<F>, BrandFault>
        requires { AnswersTable F.Fn hook table }
        ensures result { AnswersUnless BrandFault.Memory (brand_of name.now table hook) result }
        ensures follows { IfOk result (Follows F.Fn) }
    {
        if !is_brand_name(name) {
            return Err(BrandFault::BadBrandName);
        }
        let name = Text::of(alloc, name)?;
        Ok(Brand { name, table, hook })
    }

    /// Asks the hook of a change: calls it, and what it answers is the table's entry. It takes no memory.
    pub fn ask(&self, change: &Change) -> HookAnswer
        requires { Follows F.Fn self.now }
        ensures asked { FnReturnsAt F.Fn self.now.hook change.now result }
        ensures answer { result ≡ answer_at change.now self.now.table }
    {
        (self.hook)(change)
    }
}
