ghost use Rattle.std.specs.Prelude.{◌≡◌, ℕ, ◌<◌, List, map};
ghost use Rattle.alg_core.specs.Fields.{Scalar, scalar, scalars};
ghost use Rattle.lin_algebra.specs.Vectors.{vectors, vector, IsRow};
ghost use Rattle.alg_core.specs.Spans.{SameSpan, Greedy, combine};
ghost use Rattle.lin_algebra.specs.Echelons.{PivotRow, IsReducedEchelon, rows};
ghost use Rattle.lin_algebra.specs.Matrices.{columns_of, IsSolution, IsDependent};

use crate::matrix::Matrix;
use alg_core::Field;

/// A law: there is one list in reduced echelon form with a given span.
pub fn echelon_is_unique<F: Field>(field: &F)
    ensures unique { let k = F.field field.now in (l l' : List (PivotRow (Scalar k)))
        → IsReducedEchelon (scalars k) l → IsReducedEchelon (scalars k) l'
        → SameSpan (vectors (scalars k)) (rows (scalars k) l) (rows (scalars k) l') → l ≡ l' }
{}

/// A law: a system has one solution that is 0 at each column that is a combination of the columns
/// before it.
pub fn solution_is_unique<F: Field>(field: &F, a: &Matrix<F::Elem>)
    ensures unique { let k = F.field field.now in (b x y : ℕ → Scalar k)
        → IsSolution k a.now b x → IsSolution k a.now b y
        → ((j : ℕ) → IsDependent k a.now j → (x j ≡ (scalars k).zero) × (y j ≡ (scalars k).zero))
        → (j : ℕ) → j < a.now.cols → x j ≡ y j }
{}

/// A law: that solution is the greedy choice of the columns, so the one that a combination and a word
/// are printed by.
pub fn solution_is_greedy<F: Field>(field: &F, a: &Matrix<F::Elem>)
    ensures greedy { let k = F.field field.now in (xs : List F.Elem) → IsRow k a.now.cols xs
        → ((j : ℕ) → IsDependent k a.now j → vector k xs j ≡ (scalars k).zero)
        → Greedy (vectors (scalars k)) (columns_of k a.now) (map (scalar k) xs) }
    ensures sum { let k = F.field field.now in (xs : List F.Elem) (b : ℕ → Scalar k) → IsRow k a.now.cols xs
        → IsSolution k a.now b (vector k xs) → (i : ℕ) → i < a.now.rows
        → combine (vectors (scalars k)) (map (scalar k) xs) (columns_of k a.now) i ≡ b i }
{}
