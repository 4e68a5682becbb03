ghost use Rattle.std.specs.Prelude.{◌≡◌, ◌≤◌, ◌<◌, ℕ, List, All, replicate};
ghost use Rattle.alg_core.specs.Rings.{Homomorphism};
ghost use Rattle.alg_core.specs.Fields.{Scalar, scalars};
ghost use Rattle.alg_core.specs.Vectors.{Vect, plus, zero_vector, scale};
ghost use Rattle.poly_module.specs.Polynomials.{product, one_vector, vector_algebra};
ghost use Rattle.poly_module.specs.Substitutions.{variable_vector};
ghost use Rattle.poly_module.specs.Parts.{IsPolynomial, InVariables};
ghost use Rattle.poly_module.specs.Forms.{IsForm};
ghost use Rattle.lin_algebra.specs.declared.matrix.Matrix.{Matrix};
ghost use Rattle.lin_algebra.specs.Matrices.{IsIdentity, product as matrix_product};
ghost use Rattle.matrix_group.specs.Actions.{act, image, IsSquare, Invariant};
ghost use Rattle.matrix_group.specs.Groups.{cells_of, entry, IsProduct, IsOrder, IsOverOrder, IsWalk};

use alg_core::Field;

/// The action of a matrix is a homomorphism that sends each variable to its image, and polynomials to
/// polynomials in the same variables, forms to forms of their degree; one matrix after another acts as
/// their product, and the identity leaves polynomials alone.
pub fn actions<F: Field>(_field: &F)
    ensures homomorphism { let k = F.field _field.now in
        (n : ℕ) (a : ℕ → ℕ → Scalar k) → Homomorphism (vector_algebra k) (vector_algebra k) (act k n a) }
    ensures variable { let k = F.field _field.now in
        (n : ℕ) (a : ℕ → ℕ → Scalar k) (i : ℕ) → act k n a (variable_vector k i) ≡ image k n a i }
    ensures polynomial { let k = F.field _field.now in
        (n : ℕ) (a : ℕ → ℕ → Scalar k) (u : Vect k) → IsPolynomial k (act k n a u) }
    ensures variables { let k = F.field _field.now in
        (n : ℕ) (a : ℕ → ℕ → Scalar k) (w : ℕ) → n ≤ w → (u : Vect k) → InVariables k w u → InVariables k w (act k n a u) }
    ensures form { let k = F.field _field.now in
        (n : ℕ) (a : ℕ → ℕ → Scalar k) (w : ℕ) → n ≤ w → (d : ℕ) (u : Vect k) → InVariables k w u
        → IsForm k (replicate w 1) d u → IsForm k (replicate w 1) d (act k n a u) }
    ensures after { let k = F.field _field.now in
        (n : ℕ) (a b : ℕ → ℕ → Scalar k) (u : Vect k) → act k n b (act k n a u) ≡ act k n (matrix_product (scalars k) n a b) u }
    ensures identity { let k = F.field _field.now in
        (n : ℕ) (a : ℕ → ℕ → Scalar k) → IsIdentity (scalars k) n a → (u : Vect k) → IsPolynomial k u → act k n a u ≡ u }
{}

/// The invariants have 0, 1, sums, multiples and products; a polynomial that the generators fix is fixed
/// by each finite product of them.
pub fn invariants<F: Field>(_field: &F)
    ensures zero { let k = F.field _field.now in (gens : List (Matrix F.Elem)) → Invariant k gens (zero_vector k) }
    ensures one { let k = F.field _field.now in (gens : List (Matrix F.Elem)) → Invariant k gens (one_vector k) }
    ensures sum { let k = F.field _field.now in
        (gens : List (Matrix F.Elem)) (u v : Vect k) → Invariant k gens u → Invariant k gens v → Invariant k gens (plus k u v) }
    ensures multiple { let k = F.field _field.now in
        (gens : List (Matrix F.Elem)) (c : F.Elem) (u : Vect k) → Invariant k gens u → Invariant k gens (scale k c u) }
    ensures product { let k = F.field _field.now in
        (gens : List (Matrix F.Elem)) (u v : Vect k) → Invariant k gens u → Invariant k gens v → Invariant k gens (product k u v) }
    ensures group { let k = F.field _field.now in
        (n : ℕ) (gens : List (Matrix F.Elem)) → All (IsSquare k n) gens → (u : Vect k) → IsPolynomial k u → Invariant k gens u
        → (g : List F.Elem) → IsProduct k n (cells_of gens) g → act k n (entry k n g) u ≡ u }
{}

/// A group has one order, which is over a bound exactly where there are more products than that; and
/// one list of its elements in the order in which they are found.
pub fn orders<F: Field>(_field: &F)
    ensures one { let k = F.field _field.now in
        (n : ℕ) (gens : List (List F.Elem)) (p q : ℕ) → IsOrder k n gens p → IsOrder k n gens q → p ≡ q }
    ensures over { let k = F.field _field.now in
        (n : ℕ) (gens : List (List F.Elem)) (p m : ℕ) → IsOrder k n gens p → IsOverOrder k n gens m → m < p }
    ensures more { let k = F.field _field.now in
        (n : ℕ) (gens : List (List F.Elem)) (p m : ℕ) → IsOrder k n gens p → m < p → IsOverOrder k n gens m }
    ensures list { let k = F.field _field.now in
        (n : ℕ) (gens gs hs : List (List F.Elem)) → IsWalk k n gens gs → IsWalk k n gens hs → gs ≡ hs }
{}
