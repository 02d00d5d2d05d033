//! What the calls keep, said of the definitions alone. Each law is the contract of a function that does nothing.
ghost use Rattle.std.specs.Prelude.{◌≡◌, ◌≢◌, ◌&&◌, ◌||◌, ◌++◌, ◌∷◌, [], List, None, Some, not, true};
ghost use Rattle.zn_base.specs.Names.{Name};
ghost use Rattle.datalink_table.specs.Claims.{claiming, each_once, holds, same_claim};
ghost use Rattle.datalink_table.specs.Shared.{Agree, Alike, AllAgree, Declares, Frees, HeldAreDeclared, Shared, Takes, allows, holder, is_held, with_cell};
ghost use Rattle.datalink_table.specs.declared.claims.Claim.{Claim};

/// Which items a zone holds after one more claim, and after the latest of claims that are there once ends.
pub fn items_of_a_zone()
    ensures claimed { (c d : Claim) (cs : List Claim) → holds d (cs ++ c ∷ []) ≡ (holds d cs || same_claim c d) }
    ensures released { (c d : Claim) (cs : List Claim) → each_once (cs ++ c ∷ []) ≡ true → holds d cs ≡ (holds d (cs ++ c ∷ []) && not (same_claim c d)) }
{}

/// A zone's cell and the shared part agree after each call that changes them, where they agreed before, and so do the
/// cells of other zones. Where a zone may claim an item, the item is held just where the zone holds it already.
pub fn cells_and_shared_part_agree()
    ensures alike { (z : Name) (cs : List Claim) (s t : Shared) → Agree z cs s → Alike s t → Agree z cs t }
    ensures declared { (z : Name) (cs : List Claim) (s t : Shared) (c : Claim) → Agree z cs s → Declares c s t → Agree z cs t }
    ensures already { (z : Name) (cs : List Claim) (s : Shared) (c : Claim) → Agree z cs s → allows z c s ≡ true → is_held c s ≡ holds c cs }
    ensures claimed { (z : Name) (cs : List Claim) (s t : Shared) (c : Claim) → Agree z cs s → allows z c s ≡ true → Takes z c s t → Agree z (claiming (holds c cs) c cs) t }
    ensures released { (z : Name) (cs : List Claim) (s t : Shared) (c : Claim) → Agree z (cs ++ c ∷ []) s → Frees (Some c) s t → Agree z cs t }
    ensures claimed_elsewhere { (y z : Name) (cs : List Claim) (s t : Shared) (c : Claim) → y ≢ z → Agree y cs s → allows z c s ≡ true → Takes z c s t → Agree y cs t }
    ensures released_elsewhere { (y z : Name) (ds cs : List Claim) (s t : Shared) (c : Claim) → y ≢ z → Agree y ds s → Agree z (cs ++ c ∷ []) s → Frees (Some c) s t → Agree y ds t }
{}

/// Each claimed item has one holder, which claimed it once: of no item two zones have a claim, where each zone's cell agrees
/// with the shared part. They do so at the beginning, and after each call that changes one, where they did before.
pub fn each_item_has_one_holder()
    ensures one { (cells : Name → List Claim) (s : Shared) (y z : Name) (c : Claim) → AllAgree cells s → holds c (cells y) ≡ true → holds c (cells z) ≡ true → y ≡ z }
    ensures once { (cells : Name → List Claim) (s : Shared) (z : Name) → AllAgree cells s → each_once (cells z) ≡ true }
    ensures none { (s : Shared) → ((c : Claim) → holder c s ≡ None) → AllAgree (λ z. []) s }
    ensures alike { (cells : Name → List Claim) (s t : Shared) → AllAgree cells s → Alike s t → AllAgree cells t }
    ensures declared { (cells : Name → List Claim) (s t : Shared) (c : Claim) → AllAgree cells s → Declares c s t → AllAgree cells t }
    ensures claimed { (cells : Name → List Claim) (s t : Shared) (z : Name) (c : Claim) → AllAgree cells s → allows z c s ≡ true → Takes z c s t
        → AllAgree (with_cell z (claiming (holds c (cells z)) c (cells z)) cells) t }
    ensures released { (cells : Name → List Claim) (s t : Shared) (z : Name) (cs : List Claim) (c : Claim) → AllAgree cells s → cells z ≡ cs ++ c ∷ [] → Frees (Some c) s t
        → AllAgree (with_cell z cs cells) t }
{}

/// What is held is declared, at the beginning and after each call, where it was so before.
pub fn held_items_are_declared()
    ensures none { (s : Shared) → ((c : Claim) → holder c s ≡ None) → HeldAreDeclared s }
    ensures alike { (s t : Shared) → HeldAreDeclared s → Alike s t → HeldAreDeclared t }
    ensures declared { (s t : Shared) (c : Claim) → HeldAreDeclared s → Declares c s t → HeldAreDeclared t }
    ensures claimed { (s t : Shared) (z : Name) (c : Claim) → HeldAreDeclared s → allows z c s ≡ true → Takes z c s t → HeldAreDeclared t }
    ensures released { (s t : Shared) (c : Claim) → HeldAreDeclared s → Frees (Some c) s t → HeldAreDeclared t }
{}
