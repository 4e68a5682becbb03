ghost use Rattle.std.specs.Prelude.{◌≡◌, ◌↔◌, ◌<◌, ◌+◌, ◌++◌, ℕ, List, All, length, map, replicate};
ghost use Rattle.alg_core.specs.Rings.{Linear};
ghost use Rattle.alg_core.specs.Keys.{Key};
ghost use Rattle.alg_core.specs.Vectors.{Vect, vectors};
ghost use Rattle.poly_module.specs.GreatestExponents.{total};
ghost use Rattle.poly_module.specs.Polynomials.{single_vector, product};
ghost use Rattle.poly_module.specs.Parts.{IsPolynomial};
ghost use Rattle.poly_module.specs.Degrees.{IsGraded};
ghost use Rattle.poly_module.specs.Forms.{IsForm};
ghost use Rattle.poly_module.specs.Combinations.{IsCombination, combination_degree};
ghost use Rattle.poly_module.specs.Marks.{IsMixed, in_marks};
ghost use Rattle.finite_certificate.specs.StandardMonomials.{AreStandardMonomials, IsStandardForm};
ghost use Rattle.primary_module.specs.Positions.{AreDifferent, HasParts, HasPositions};
ghost use Rattle.primary_module.specs.Positions.{key_at_position, at_positions, key_from_position, from_positions};

use alg_core::Field;

/// Polynomials in n variables and marks whose parts in the variables are monomials of a list, and vectors
/// over the polynomials in the marks with a position for each of these monomials: each translation is linear
/// and the inverse of the other, and takes a multiple by a polynomial in the marks to the multiple.
pub fn position_translations<F: Field>(_field: &F)
    ensures linear { let k = F.field _field.now in (n : ℕ) (B : List (List ℕ)) → Linear (vectors k) (vectors k) (at_positions k n B) }
    ensures single { let k = F.field _field.now in (n : ℕ) (B : List (List ℕ)) (t : Key)
        → at_positions k n B (single_vector k t) ≡ single_vector k (key_at_position k n B t) }
    ensures product { let k = F.field _field.now in (n : ℕ) (B : List (List ℕ)) (a u : Vect k)
        → at_positions k n B (product k (in_marks k n a) u) ≡ product k a (at_positions k n B u) }
    ensures combination { let k = F.field _field.now in (n r : ℕ) (B : List (List ℕ)) (u : Vect k) → IsMixed k n r u → HasParts k n B u
        → IsCombination k r (length B) (at_positions k n B u) }
    ensures back_linear { let k = F.field _field.now in (n : ℕ) (B : List (List ℕ))
        → Linear (vectors k) (vectors k) (from_positions k n B) }
    ensures back_single { let k = F.field _field.now in (n : ℕ) (B : List (List ℕ)) (t : Key)
        → from_positions k n B (single_vector k t) ≡ single_vector k (key_from_position k n B t) }
    ensures back_product { let k = F.field _field.now in (n : ℕ) (B : List (List ℕ)) (a w : Vect k) → IsPolynomial k a
        → from_positions k n B (product k a w) ≡ product k (in_marks k n a) (from_positions k n B w) }
    ensures back_mixed { let k = F.field _field.now in (n r : ℕ) (B : List (List ℕ)) (w : Vect k) → All (λ b. length b ≡ n) B
        → IsCombination k r (length B) w → IsMixed k n r (from_positions k n B w) × HasParts k n B (from_positions k n B w) }
    ensures back { let k = F.field _field.now in (n : ℕ) (B : List (List ℕ)) (u : Vect k) → IsPolynomial k u → HasParts k n B u
        → from_positions k n B (at_positions k n B u) ≡ u }
    ensures again { let k = F.field _field.now in (n : ℕ) (B : List (List ℕ)) (w : Vect k) → All (λ b. length b ≡ n) B → AreDifferent B
        → HasPositions k (length B) w → at_positions k n B (from_positions k n B w) ≡ w }
{}

/// They keep degrees, where each position has the degree of its monomial as shift.
pub fn position_degrees<F: Field>(_field: &F)
    ensures degree { let k = F.field _field.now in (n : ℕ) (ds : List ℕ) (B : List (List ℕ)) → All (λ b. length b ≡ n) B
        → (d : ℕ) (u : Vect k) → IsMixed k n (length ds) u → HasParts k n B u → IsForm k (replicate n 1 ++ ds) d u
        → IsGraded k (combination_degree ds (map total B)) d (at_positions k n B u) }
    ensures back_degree { let k = F.field _field.now in (n : ℕ) (ds : List ℕ) (B : List (List ℕ)) → All (λ b. length b ≡ n) B
        → (d : ℕ) (w : Vect k) → IsCombination k (length ds) (length B) w → IsGraded k (combination_degree ds (map total B)) d w
        → IsForm k (replicate n 1 ++ ds) d (from_positions k n B w) }
{}

/// The standard monomials are different, and a polynomial is a standard form exactly where its parts are
/// among them.
pub fn standard_positions<F: Field>(_field: &F)
    ensures different { let k = F.field _field.now in (n : ℕ) (θ : List (Vect k)) (B : List (List ℕ)) → AreStandardMonomials k n θ B
        → AreDifferent B }
    ensures parts { let k = F.field _field.now in (n : ℕ) (θ : List (Vect k)) (B : List (List ℕ)) → AreStandardMonomials k n θ B
        → (u : Vect k) → IsStandardForm k n θ u ↔ HasParts k n B u }
{}
