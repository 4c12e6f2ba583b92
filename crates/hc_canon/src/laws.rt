ghost use Rattle.std.specs.Prelude.{◌≡◌, ◌↔◌, List};
ghost use Rattle.hc_canon.specs.declared.form.EntryId.{EntryId};
ghost use Rattle.hc_canon.specs.FormView.{AreIsomorphic, FormView, IsCanonOf};
ghost use Rattle.hc_canon.specs.Hashing.{hash_of};
ghost use Rattle.hc_canon.specs.Numbering.{IsCanonical};
ghost use Rattle.hc_canon.specs.Same.{IsIsomorphism, Same};
ghost use Rattle.hc_signal.specs.Graph.{Graph};
ghost use Rattle.hc_signal.specs.Lawful.{IsLawful};
ghost use Rattle.hc_signal.specs.Renumber.{Renumbering};
ghost use Rattle.hc_signal.specs.Tree.{Tree};

/// Sameness of trees is an equivalence.
pub fn same_is_an_equivalence()
    ensures reflexive { (t : Tree) → Same t t }
    ensures symmetric { (s t : Tree) → Same s t → Same t s }
    ensures transitive { (s t u : Tree) → Same s t → Same t u → Same s u }
{}

/// Each lawful graph has a canonical form, which is lawful too.
pub fn canonical_forms_exist()
    ensures { (g : Graph) → IsLawful g → (c : Graph) × (to : Renumbering) × (back : Renumbering) × IsIsomorphism to back g c × IsLawful c × IsCanonical c }
{}

/// A graph has at most one canonical form.
pub fn canonical_forms_are_single()
    ensures { (g c d : Graph) (to back into home : Renumbering) → IsIsomorphism to back g c → IsIsomorphism into home g d → IsCanonical c → IsCanonical d → c ≡ d }
{}

/// Forms are equal exactly where the circuits that they are of are isomorphic and paired instances have the same entry.
pub fn forms_decide_isomorphism()
    ensures { (g h : Graph) (ids others : List EntryId) (a b : FormView) → IsCanonOf g ids a → IsCanonOf h others b → (a ≡ b) ↔ AreIsomorphic g ids h others }
{}

/// Equal forms have equal hashes.
pub fn equal_forms_have_equal_hashes()
    ensures { (a b : FormView) → a ≡ b → hash_of a ≡ hash_of b }
{}
