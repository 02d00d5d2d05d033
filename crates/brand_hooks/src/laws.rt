//! What the definitions keep. Each law is the contract of a function that does nothing.
ghost use Rattle.std.specs.Prelude.{◌≡◌, ◌≢◌, ◌<◌, ◌↔◌, All, List, ℕ, None, Some, bytes_eq, find, length, slice_index_or};
ghost use Rattle.brand_hooks.specs.Brands.{Hooked, Tabled, answer_by, answer_of, brand_named, first_again, names_of, place_of};
ghost use Rattle.brand_hooks.specs.Tables.{answer_at, proceeding, with_answer};
ghost use Rattle.brand_hooks.specs.declared.change.Change.{Change};
ghost use Rattle.brand_hooks.specs.declared.table.HookAnswer.{HookAnswer};
ghost use Rattle.brand_hooks.specs.declared.table.HookAnswer.TheVariants.{Proceed};

/// A table has an answer for each of the 16 changes. With another answer at one change it has that answer there, and at
/// each other change what it had.
pub fn one_answer_changes()
    ensures size { length proceeding ≡ 16 }
    ensures size_kept { (c : Change) (a : HookAnswer) (t : List HookAnswer) → length (with_answer c a t) ≡ length t }
    ensures proceeds { (c : Change) → answer_at c proceeding ≡ Proceed }
    ensures same { (c : Change) (a : HookAnswer) (t : List HookAnswer) → length t ≡ 16 → answer_at c (with_answer c a t) ≡ a }
    ensures others { (c d : Change) (a : HookAnswer) (t : List HookAnswer) → c ≢ d → answer_at d (with_answer c a t) ≡ answer_at d t }
{}

/// Where no brand has the name of an earlier one, each is found by its name.
#[tactic(auto, using(crate::proofs::Found::found_by_name))]
pub fn brands_are_found_by_name<F>()
    ensures { (brands : List (Hooked F)) (place : ℕ) (other : Hooked F) → first_again (names_of brands) ≡ None → place < length brands
        → brand_named (slice_index_or brands place other).name brands ≡ Some (slice_index_or brands place other) }
{}

/// At the place of a name the first brand of that name answers. A name has no place exactly where each brand has another
/// name.
#[tactic(auto, using(crate::proofs::Placed::answer_at_place, crate::proofs::Placed::no_place))]
pub fn brands_answer_at_their_places()
    ensures answer { (name : List ℕ) (brands : List Tabled) (change : Change)
        → answer_of brands (place_of name brands) change ≡ answer_by (find (λ b. bytes_eq name b.name) brands) change }
    ensures absent { (name : List ℕ) (brands : List Tabled) → (place_of name brands ≡ None) ↔ All (λ b. name ≢ b.name) brands }
{}
