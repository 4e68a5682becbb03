ghost use Rattle.std.specs.Prelude.{◌≡◌, ◌⊎◌, ◌<◌, ℕ, List, All, length};
ghost use Rattle.alg_core.specs.declared.limits.Limits.{Limits};
ghost use Rattle.alg_core.specs.Spaces.{over};
ghost use Rattle.alg_core.specs.Vectors.{Vect};
ghost use Rattle.lin_algebra.specs.declared.matrix.Matrix.{Matrix};
ghost use Rattle.matrix_group.specs.Actions.{Invariant};
ghost use Rattle.module_groebner.specs.declared.bound.BasisBound.{BasisBound};
ghost use Rattle.finite_certificate.specs.Ideals.{Regular};
ghost use Rattle.finite_certificate.specs.MarkSpaces.{ArePositiveForms};
ghost use Rattle.primary_search.specs.Ends.{Ends, LacksPrimaries, IsPastTerms, StopsAtColon, StopsAtIdeal};
ghost use Rattle.primary_search.specs.Searches.{IsNoPrimary, IsTermBound, IsColonStop, IsIdealStop, IsEnd};
ghost use Rattle.primary_search.specs.Walks.{FirstPrimaries};

use alg_core::{Field, Space, TermOrder};

/// There is at most one list of first primary invariants for so many candidates of each degree. Its
/// members are homogeneous invariants of positive degree, and each is a nonzerodivisor modulo those
/// before it. A search that ends under some limits gives this list.
pub fn first_primaries<F: Field, O: TermOrder>(_space: &Space<F, O>)
    ensures unique { let S = over F.field O.order _space.now in (gens : List (Matrix F.Elem)) (tries : ℕ) (θ φ : List (Vect S.field))
        → FirstPrimaries S gens tries θ → FirstPrimaries S gens tries φ → θ ≡ φ }
    ensures forms { let S = over F.field O.order _space.now in (gens : List (Matrix F.Elem)) (tries : ℕ) (θ : List (Vect S.field))
        → FirstPrimaries S gens tries θ → (ds : List ℕ) × ArePositiveForms S.field (length S.weights) ds θ }
    ensures invariant { let S = over F.field O.order _space.now in (gens : List (Matrix F.Elem)) (tries : ℕ) (θ : List (Vect S.field))
        → FirstPrimaries S gens tries θ → All (Invariant S.field gens) θ }
    ensures regular { let S = over F.field O.order _space.now in (gens : List (Matrix F.Elem)) (tries : ℕ) (θ : List (Vect S.field))
        → FirstPrimaries S gens tries θ → Regular S.field θ }
    ensures end { let S = over F.field O.order _space.now in (gens : List (Matrix F.Elem)) (l : Limits) (θ : List (Vect S.field))
        → 0 < length S.weights → IsEnd S gens l θ → FirstPrimaries S gens l.tries θ }
{}

/// A search under limits ends in at most one way, and the same way each time, but for the element that
/// names a bound of a basis: of that the degree is the same.
pub fn search_ends<F: Field, O: TermOrder>(_space: &Space<F, O>)
    ensures ends { let S = over F.field O.order _space.now in (gens : List (Matrix F.Elem)) (l : Limits)
        → Ends S gens l → ¬ (LacksPrimaries S gens l ⊎ IsPastTerms S gens l ⊎ StopsAtColon S gens l ⊎ StopsAtIdeal S gens l) }
    ensures lacks { let S = over F.field O.order _space.now in (gens : List (Matrix F.Elem)) (l : Limits)
        → LacksPrimaries S gens l → ¬ (IsPastTerms S gens l ⊎ StopsAtColon S gens l ⊎ StopsAtIdeal S gens l) }
    ensures terms { let S = over F.field O.order _space.now in (gens : List (Matrix F.Elem)) (l : Limits)
        → IsPastTerms S gens l → ¬ (StopsAtColon S gens l ⊎ StopsAtIdeal S gens l) }
    ensures colon { let S = over F.field O.order _space.now in (gens : List (Matrix F.Elem)) (l : Limits)
        → StopsAtColon S gens l → ¬ StopsAtIdeal S gens l }
    ensures one_end { let S = over F.field O.order _space.now in (gens : List (Matrix F.Elem)) (l : Limits) (θ φ : List (Vect S.field))
        → IsEnd S gens l θ → IsEnd S gens l φ → θ ≡ φ }
    ensures one_lack { let S = over F.field O.order _space.now in (gens : List (Matrix F.Elem)) (l : Limits)
        (T U : List (Vect S.field)) (d e : ℕ) → IsNoPrimary S gens l T d → IsNoPrimary S gens l U e → (T ≡ U) × (d ≡ e) }
    ensures one_degree { let S = over F.field O.order _space.now in (gens : List (Matrix F.Elem)) (l : Limits) (d e m n : ℕ)
        → IsTermBound S gens l d m → IsTermBound S gens l e n → (d ≡ e) × (m ≡ n) }
    ensures one_colon { let S = over F.field O.order _space.now in (gens : List (Matrix F.Elem)) (l : Limits) (b c : BasisBound F.Elem)
        → IsColonStop S gens l b → IsColonStop S gens l c → b.degree ≡ c.degree }
    ensures one_ideal { let S = over F.field O.order _space.now in (gens : List (Matrix F.Elem)) (l : Limits) (b c : BasisBound F.Elem)
        → IsIdealStop S gens l b → IsIdealStop S gens l c → b.degree ≡ c.degree }
{}
