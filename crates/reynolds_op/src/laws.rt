ghost use Rattle.std.specs.Prelude.{◌≡◌, ◌≤◌, ◌↔◌, ℕ, List, All, Contains, replicate};
ghost use Rattle.alg_core.specs.Vectors.{Vect, plus, scale};
ghost use Rattle.poly_module.specs.Polynomials.{product};
ghost use Rattle.poly_module.specs.Parts.{IsPolynomial, InVariables};
ghost use Rattle.poly_module.specs.Forms.{IsForm};
ghost use Rattle.lin_algebra.specs.declared.matrix.Matrix.{Matrix};
ghost use Rattle.matrix_group.specs.Actions.{IsSquare, Invariant};
ghost use Rattle.matrix_group.specs.Groups.{cells_of, AreElements};
ghost use Rattle.reynolds_op.specs.Averages.{Averaging, reynolds, IsAveraging, IsAverage};

use alg_core::Field;

/// The Reynolds operator R of a group: R(u) is a polynomial that each element fixes, and u is fixed by
/// each exactly where R(u) = u; R keeps sums, multiples, degrees, and factors that each element fixes;
/// it does not depend on the order of the elements.
/// (Derksen and Kemper, Computational Invariant Theory, section 2.2.)
pub fn averages<F: Field>(_field: &F)
    ensures invariant { let k = F.field _field.now in
        (n : ℕ) (R : Averaging F.Elem) → IsAveraging k n R → (u : Vect k) → Invariant k R.elements (reynolds k n R u) }
    ensures fixed { let k = F.field _field.now in
        (n : ℕ) (R : Averaging F.Elem) → IsAveraging k n R → (u : Vect k) → Invariant k R.elements u ↔ (reynolds k n R u ≡ u) }
    ensures over { let k = F.field _field.now in
        (n : ℕ) (R : Averaging F.Elem) → IsAveraging k n R → (a u : Vect k) → Invariant k R.elements a
        → reynolds k n R (product k a u) ≡ product k a (reynolds k n R u) }
    ensures sum { let k = F.field _field.now in
        (n : ℕ) (R : Averaging F.Elem) (u v : Vect k) → reynolds k n R (plus k u v) ≡ plus k (reynolds k n R u) (reynolds k n R v) }
    ensures multiple { let k = F.field _field.now in
        (n : ℕ) (R : Averaging F.Elem) (c : F.Elem) (u : Vect k) → reynolds k n R (scale k c u) ≡ scale k c (reynolds k n R u) }
    ensures polynomial { let k = F.field _field.now in
        (n : ℕ) (R : Averaging F.Elem) (u : Vect k) → IsPolynomial k (reynolds k n R u) }
    ensures variables { let k = F.field _field.now in
        (n : ℕ) (R : Averaging F.Elem) (w : ℕ) → n ≤ w → (u : Vect k) → InVariables k w u → InVariables k w (reynolds k n R u) }
    ensures form { let k = F.field _field.now in
        (n : ℕ) (R : Averaging F.Elem) (w : ℕ) → n ≤ w → (d : ℕ) (u : Vect k) → InVariables k w u
        → IsForm k (replicate w 1) d u → IsForm k (replicate w 1) d (reynolds k n R u) }
    ensures order { let k = F.field _field.now in
        (n : ℕ) (R S : Averaging F.Elem) → IsAveraging k n R → IsAveraging k n S
        → ((g : List F.Elem) → Contains (cells_of R.elements) g ↔ Contains (cells_of S.elements) g)
        → (u : Vect k) → reynolds k n R u ≡ reynolds k n S u }
{}

/// By generators of the group: R(u) is fixed by each of them, a polynomial u is fixed by each exactly
/// where R(u) = u, and factors that each of them fixes go out of R. A polynomial has one average over
/// the group that given matrices generate.
pub fn generated_averages<F: Field>(_field: &F)
    ensures invariant { let k = F.field _field.now in
        (n : ℕ) (R : Averaging F.Elem) → IsAveraging k n R
        → (gens : List (Matrix F.Elem)) → All (IsSquare k n) gens → AreElements k n (cells_of gens) (cells_of R.elements)
        → (u : Vect k) → Invariant k gens (reynolds k n R u) }
    ensures fixed { let k = F.field _field.now in
        (n : ℕ) (R : Averaging F.Elem) → IsAveraging k n R
        → (gens : List (Matrix F.Elem)) → All (IsSquare k n) gens → AreElements k n (cells_of gens) (cells_of R.elements)
        → (u : Vect k) → IsPolynomial k u → Invariant k gens u ↔ (reynolds k n R u ≡ u) }
    ensures over { let k = F.field _field.now in
        (n : ℕ) (R : Averaging F.Elem) → IsAveraging k n R
        → (gens : List (Matrix F.Elem)) → All (IsSquare k n) gens → AreElements k n (cells_of gens) (cells_of R.elements)
        → (a u : Vect k) → IsPolynomial k a → Invariant k gens a
        → reynolds k n R (product k a u) ≡ product k a (reynolds k n R u) }
    ensures unique { let k = F.field _field.now in (gens : List (Matrix F.Elem)) (f h g : Vect k)
        → IsAverage k gens f h → IsAverage k gens f g → h ≡ g }
{}
