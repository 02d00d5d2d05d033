//! Laws of the grammar of values.
ghost use Rattle.std.specs.Prelude.{◌≡◌, ◌↔◌, ℕ, List, None, Some};
ghost use Rattle.zonecfg_lex.specs.Grammar.{kinds, IsValue, StopsAt};
ghost use Rattle.zonecfg_lex.specs.Value.{first_misfit};
ghost use Rattle.zonecfg_lex.specs.declared.grammar.Stage.TheVariants.{Start};
ghost use Rattle.zonecfg_lex.specs.declared.token.Token.{Token};

/// A law: tokens misfit nowhere exactly where the grammar takes them for a value, and else at just the place
/// where they stop being one.
pub fn values_fit()
    ensures fit { (end : ℕ) (ts : List Token) → first_misfit end Start ts ≡ None ↔ IsValue (kinds ts) }
    ensures misfit { (end : ℕ) (ts : List Token) (place : ℕ) → first_misfit end Start ts ≡ Some place ↔ StopsAt end ts place }
{}
