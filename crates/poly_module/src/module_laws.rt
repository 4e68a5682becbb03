ghost use Rattle.std.specs.Prelude.{◌≡◌, ◌↔◌, ◌≤◌, ◌+◌, ◌++◌, ℕ, List, length, true};
ghost use Rattle.alg_core.specs.Rings.{Linear};
ghost use Rattle.alg_core.specs.Monomials.{Mon};
ghost use Rattle.alg_core.specs.Keys.{Key};
ghost use Rattle.alg_core.specs.MonomialParts.{variable_part, mark_part, key_as_marks};
ghost use Rattle.alg_core.specs.Lists.{In};
ghost use Rattle.alg_core.specs.Vectors.{Vect, vectors};
ghost use Rattle.alg_core.specs.Spaces.{over};
ghost use Rattle.alg_core.specs.SpaceOrder.{key_order};
ghost use Rattle.alg_core.specs.EliminationOrder.{elimination_order};
ghost use Rattle.poly_module.specs.Signs.{minus};
ghost use Rattle.poly_module.specs.Polynomials.{single_vector, product};
ghost use Rattle.poly_module.specs.Substitutions.{substitute};
ghost use Rattle.poly_module.specs.Parts.{Supp, IsPolynomial, InVariables};
ghost use Rattle.poly_module.specs.Degrees.{IsGraded};
ghost use Rattle.poly_module.specs.Forms.{key_weight};
ghost use Rattle.poly_module.specs.Modules.{InModule, listed, LeadBy};
ghost use Rattle.poly_module.specs.ReducedLists.{FitsOrder, IsReducedBasis};
ghost use Rattle.poly_module.specs.Combinations.{mark_value};
ghost use Rattle.poly_module.specs.Marks.{IsMixed, in_marks, from_marks, relations, IsRelation};

use alg_core::{ElimOrder, Field, Space, TermOrder};

/// By a positive order the members of a reduced basis have no variable beyond those of the generators.
pub fn reduced_variables<F: Field, O: TermOrder>(_space: &Space<F, O>)
    ensures variables { let S = over F.field O.order _space.now in (g : ℕ → Vect S.field) (n : ℕ)
        → ((i : ℕ) → InVariables S.field n (g i)) → S.order.is_positive ≡ true → ((i : ℕ) → Supp S.field (FitsOrder S) (g i))
        → (vs : List (Vect S.field)) → IsReducedBasis S g vs → (v : Vect S.field) → In v vs → InVariables S.field n v }
{}

/// Where the lead of a vector in the variables of a space is of the second block of its elimination order,
/// so are all its keys.
pub fn second_blocks<F: Field>(_space: &Space<F, ElimOrder>)
    ensures second { let o = _space.now.order in let S = over F.field (λ o. elimination_order o.first o.weights.items) _space.now in
        length o.weights.items ≡ length S.weights → (v : Vect S.field) (t : Key) → InVariables S.field (length S.weights) v
        → LeadBy S.field (key_order S) v t → o.first ≤ t.0 → Supp S.field (λ s. o.first ≤ s.0) v }
{}

/// Variables as marks: the j-th variable goes to the variable n + j, linearly, and products to products; what
/// comes of a polynomial has its value, where the marks have the images of the variables, and its degrees.
pub fn mark_translations<F: Field>(_field: &F)
    ensures linear { let k = F.field _field.now in (n : ℕ) → Linear (vectors k) (vectors k) (in_marks k n) }
    ensures single { let k = F.field _field.now in (n : ℕ) (t : Key)
        → in_marks k n (single_vector k t) ≡ single_vector k (key_as_marks n t) }
    ensures product { let k = F.field _field.now in (n : ℕ) (u v : Vect k)
        → in_marks k n (product k u v) ≡ product k (in_marks k n u) (in_marks k n v) }
    ensures value { let k = F.field _field.now in (n : ℕ) (θ : List (Vect k)) (u : Vect k)
        → mark_value k n θ (in_marks k n u) ≡ substitute k θ u }
    ensures degree { let k = F.field _field.now in (ws ds : List ℕ) (d : ℕ) (u : Vect k) → InVariables k (length ds) u
        → IsGraded k (key_weight ds) d u → IsGraded k (key_weight (ws ++ ds)) d (in_marks k (length ws) u) }
    ensures polynomial { let k = F.field _field.now in (n r : ℕ) (u : Vect k)
        → IsPolynomial k u → InVariables k r u → IsMixed k n r (in_marks k n u) }
    ensures back { let k = F.field _field.now in (n : ℕ) (u : Vect k) → from_marks k n (in_marks k n u) ≡ u }
    ensures parts { let k = F.field _field.now in (n i : ℕ) (m : Mon)
        → single_vector k (i, m) ≡ product k (single_vector k (0, variable_part n m)) (in_marks k n (single_vector k (i, mark_part n m))) }
{}

/// For polynomials in n variables: a polynomial in the variables and marks less its value lies in the ideal of
/// the relations between these polynomials and their marks, and the polynomials with the value 0 are those in it.
pub fn relation_ideals<F: Field>(_field: &F)
    ensures difference { let k = F.field _field.now in (n : ℕ) (θ : List (Vect k))
        → ((f : Vect k) → In f θ → IsPolynomial k f × InVariables k n f) → (u : Vect k) → IsMixed k n (length θ) u
        → InModule k (listed k (relations k n θ)) (minus k u (mark_value k n θ u)) }
    ensures exact { let k = F.field _field.now in (n : ℕ) (θ : List (Vect k))
        → ((f : Vect k) → In f θ → IsPolynomial k f × InVariables k n f) → (u : Vect k)
        → IsRelation k n θ u ↔ (IsMixed k n (length θ) u × InModule k (listed k (relations k n θ)) u) }
{}
