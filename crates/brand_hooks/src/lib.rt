//! Brands of zones with their hooks, by brands(7): a hook is asked before and after each change of a zone's state, and
//! answers that the change proceeds, or refuses it with a code. A `Brand` is a name, a table of answers, and a hook that
//! answers the table; `ask` calls the hook, and what it answers is the table's entry. No type can say of a function that
//! it keeps what its calls answer, so clauses do: `Brand::new` asks that the hook answers the table and hands that on,
//! `ask` and what stands on it ask for it again, of a list of brands as `AllFollow`. `BrandTables` are brands without
//! their hooks: what `Brands::answer` asks of a hook, they answer from its table. Both are asked by the brand's place
//! among them, which `BrandTables::place` tells once: to keep it takes no memory, and to ask by it no search.
#![tactic(auto)]

mod brand;
mod brands;
mod change;
mod fault;
mod laws;
mod table;
mod tables;

pub use brand::Brand;
pub use brands::Brands;
pub use change::{Change, ChangeKind};
pub use fault::BrandFault;
pub use laws::{brands_answer_at_their_places, brands_are_found_by_name, one_answer_changes};
pub use table::{HookAnswer, HookTable};
pub use tables::BrandTables;
