ghost use Rattle.std.specs.Prelude.{◌≡◌, ◌<◌, ℕ, List, length};
ghost use Rattle.alg_core.specs.Vectors.{Vect, plus, scale};
ghost use Rattle.alg_core.specs.declared.term.Term.{Term};
ghost use Rattle.poly_module.specs.Marks.{in_marks};
ghost use Rattle.poly_module.specs.Modules.{listed};
ghost use Rattle.poly_module.specs.Parts.{IsPolynomial, InVariables};
ghost use Rattle.poly_module.specs.Polynomials.{product};
ghost use Rattle.poly_module.specs.SpaceVectors.{vectors_of};
ghost use Rattle.poly_module.specs.Substitutions.{substitute};
ghost use Rattle.lin_algebra.specs.declared.matrix.Matrix.{Matrix};
ghost use Rattle.matrix_group.specs.Actions.{act_by};
ghost use Rattle.finite_certificate.specs.MarkSpaces.{mark_space, ArePositiveForms};
ghost use Rattle.finite_certificate.specs.StandardMonomials.{IsCoordinates, CoordinatesAreUnique, CoordinatesExist, MarksAreIndependent};
ghost use Rattle.primary_module.specs.PrimaryModules.{AreForModule, IsDifference};

use alg_core::{BlockOrder, Field, Space};

/// Where no lead of the lifts has a mark, the polynomials are a free module over the algebra of the forms
/// theta, with the standard monomials as a basis: coordinates exist and are unique, and no polynomial in
/// the marks alone but 0 has the value 0.
/// (Derksen and Kemper, Computational Invariant Theory, section 2.4.)
pub fn free_modules<F: Field>(_space: &Space<F, BlockOrder>)
    ensures unique { let S = mark_space F.field _space.now in (n : ℕ) (ds : List ℕ) (θ ls : List (List (Term F.Elem (List ℕ))))
        → AreForModule S n ds θ ls → CoordinatesAreUnique S.field n (vectors_of S (λ m. m) θ) }
    ensures exist { let S = mark_space F.field _space.now in (n : ℕ) (ds : List ℕ) (θ ls : List (List (Term F.Elem (List ℕ))))
        → AreForModule S n ds θ ls → CoordinatesExist S.field n (vectors_of S (λ m. m) θ) }
    ensures independent { let S = mark_space F.field _space.now in (n : ℕ) (ds : List ℕ) (θ ls : List (List (Term F.Elem (List ℕ))))
        → AreForModule S n ds θ ls → MarksAreIndependent S.field n (vectors_of S (λ m. m) θ) }
{}

/// Coordinates are additive, and over positive forms a multiple by a polynomial in these has the multiple
/// by that polynomial in the marks as coordinates.
pub fn coordinate_laws<F: Field>(_field: &F)
    ensures sum { let k = F.field _field.now in (n : ℕ) (θ : List (Vect k)) (f g u v : Vect k)
        → IsCoordinates k n θ f u → IsCoordinates k n θ g v → IsCoordinates k n θ (plus k f g) (plus k u v) }
    ensures multiple { let k = F.field _field.now in (n : ℕ) (θ : List (Vect k)) (c : F.Elem) (f u : Vect k) → IsCoordinates k n θ f u
        → IsCoordinates k n θ (scale k c f) (scale k c u) }
    ensures marks { let k = F.field _field.now in (n : ℕ) (θ : List (Vect k)) (ds : List ℕ) → ArePositiveForms k n ds θ
        → (a f u : Vect k) → IsPolynomial k a → InVariables k (length θ) a → IsCoordinates k n θ f u
        → IsCoordinates k n θ (product k (substitute k θ a) f) (product k (in_marks k n a) u) }
{}

/// The coordinates of the image less the polynomial are additive in the polynomial; where the matrix fixes
/// the positive forms theta, multiples by a polynomial in these go to multiples by it in the marks.
pub fn difference_laws<F: Field>(_field: &F)
    ensures sum { let k = F.field _field.now in (n : ℕ) (θ : List (Vect k)) (m : Matrix F.Elem) (f g u v : Vect k)
        → IsDifference k n θ m f u → IsDifference k n θ m g v → IsDifference k n θ m (plus k f g) (plus k u v) }
    ensures marks { let k = F.field _field.now in (n : ℕ) (θ : List (Vect k)) (m : Matrix F.Elem) (ds : List ℕ) → ArePositiveForms k n ds θ
        → m.rows ≡ n → ((j : ℕ) → j < length θ → act_by k m (listed k θ j) ≡ listed k θ j)
        → (a f u : Vect k) → IsPolynomial k a → InVariables k (length θ) a → IsDifference k n θ m f u
        → IsDifference k n θ m (product k (substitute k θ a) f) (product k (in_marks k n a) u) }
{}
