//! What stays true of a resource.
ghost use Rattle.std.specs.Prelude.{IsTrue};
ghost use Rattle.config_terms.specs.declared.terms.Kind.{Kind};
ghost use Rattle.config_terms.specs.Allowed.{is_allowed};
ghost use Rattle.config_terms.specs.Edits.{empty};
ghost use Rattle.config_terms.specs.Settable.{ResourcesAreEdited};
ghost use Rattle.config_terms.specs.Staying.{EditsStayAllowed};

/// A law: a resource of which nothing is set is allowed, and `set_property`, `clear_property`, `add_value`
/// and `remove_value` leave an allowed one allowed. So no edit makes a resource that is refused as 23.
pub fn edits_stay_allowed()
    ensures empty { (kind : Kind) → IsTrue (is_allowed (empty kind)) }
    ensures edited { EditsStayAllowed }
{}

/// A law: `set_property` sets a property where the kind has it and its rule allows the value, `clear_property` clears
/// it, and `add_value` and `remove_value` put items into a list or take each out once. Everything else is as it
/// was, and each refusal has its stated cause.
pub fn resources_are_edited()
    ensures { ResourcesAreEdited }
{}
