ghost use Rattle.std.specs.Prelude.{◌≡◌, ◌↔◌, ◌⊎◌, ◌<◌, ◌≤◌, ℕ, List, length};
ghost use Rattle.alg_core.specs.Keys.{Key};
ghost use Rattle.alg_core.specs.Lists.{In};
ghost use Rattle.alg_core.specs.Vectors.{Vect, zero_vector};
ghost use Rattle.alg_core.specs.Spaces.{over};
ghost use Rattle.alg_core.specs.SpaceOrder.{key_order};
ghost use Rattle.alg_core.specs.SpaceGrading.{degree};
ghost use Rattle.alg_core.specs.EliminationOrder.{elimination_order};
ghost use Rattle.poly_module.specs.Parts.{Supp, InVariables};
ghost use Rattle.poly_module.specs.Degrees.{IsHomogeneous};
ghost use Rattle.poly_module.specs.Modules.{LeadBy, InModule, IsGroebnerBasis, listed};
ghost use Rattle.poly_module.specs.ReducedLists.{LeadsFall, FitsOrder, IsReducedBasis, IsReducedBasisOf};
ghost use Rattle.poly_module.specs.SpaceVectors.{IsPositive};
ghost use Rattle.poly_module.specs.Caps.{IsAboveCap};
ghost use Rattle.module_groebner.specs.HomogeneousLists.{AreHomogeneous};
ghost use Rattle.module_groebner.specs.Remainders.{IsRemainder, KeepsDegrees};
ghost use Rattle.module_groebner.specs.SVectors.{IsSVector, IsTreated};
ghost use Rattle.module_groebner.specs.BasisBounds.{SomeAbove, NothingAbove};
ghost use Rattle.module_groebner.specs.Eliminations.{IsEliminated, AreEliminated};

use alg_core::{ElimOrder, Field, Space, TermOrder};

/// Two vectors with leads at one position have just one S-vector.
pub fn s_vectors<F: Field, O: TermOrder>(_space: &Space<F, O>)
    ensures exists { let S = over F.field O.order _space.now in (a b : Vect S.field) (s t : Key)
        → LeadBy S.field (key_order S) a s → LeadBy S.field (key_order S) b t → s.0 ≡ t.0
        → (v : Vect S.field) × IsSVector S a b v }
    ensures unique { let S = over F.field O.order _space.now in (a b v w : Vect S.field)
        → IsSVector S a b v → IsSVector S a b w → v ≡ w }
{}

/// Each homogeneous vector has a remainder by homogeneous vectors that keeps its degree. By a Gröbner
/// basis there is just one remainder of a vector, and that is 0 exactly for the elements of the module.
pub fn unique_remainders<F: Field, O: TermOrder>(_space: &Space<F, O>)
    ensures exists { let S = over F.field O.order _space.now in IsPositive S → (vs : List (Vect S.field))
        → AreHomogeneous S vs → (v : Vect S.field) (d : ℕ) → IsHomogeneous S d v
        → (r : Vect S.field) × IsRemainder S (listed S.field vs) v r × KeepsDegrees S v r }
    ensures zero { let S = over F.field O.order _space.now in (g : ℕ → Vect S.field)
        → IsGroebnerBasis S.field g (key_order S) → (v r : Vect S.field) → IsRemainder S g v r
        → InModule S.field g v ↔ (r ≡ zero_vector S.field) }
    ensures unique { let S = over F.field O.order _space.now in (g : ℕ → Vect S.field)
        → IsGroebnerBasis S.field g (key_order S) → (v r q : Vect S.field) → IsRemainder S g v r
        → IsRemainder S g v q → r ≡ q }
{}

/// Buchberger's criterion: homogeneous vectors are a Gröbner basis exactly where all their pairs are
/// treated, and where each of their S-vectors has the remainder 0; the S-vectors of a basis have no
/// other one. (Derksen and Kemper, Computational Invariant Theory, section 1.1.)
pub fn buchberger_criterion<F: Field, O: TermOrder>(_space: &Space<F, O>)
    ensures treated { let S = over F.field O.order _space.now in IsPositive S → (vs : List (Vect S.field))
        → AreHomogeneous S vs → IsGroebnerBasis S.field (listed S.field vs) (key_order S)
        ↔ ((i j : ℕ) → i < j → IsTreated S (listed S.field vs) i j) }
    ensures remainder { let S = over F.field O.order _space.now in IsPositive S → (vs : List (Vect S.field))
        → AreHomogeneous S vs
        → ((i j : ℕ) → i < j → (v : Vect S.field) → IsSVector S (listed S.field vs i) (listed S.field vs j) v
        → IsRemainder S (listed S.field vs) v (zero_vector S.field))
        → IsGroebnerBasis S.field (listed S.field vs) (key_order S) }
    ensures only { let S = over F.field O.order _space.now in (g : ℕ → Vect S.field)
        → IsGroebnerBasis S.field g (key_order S) → (i j : ℕ) (v r : Vect S.field)
        → IsSVector S (g i) (g j) v → IsRemainder S g v r → r ≡ zero_vector S.field }
{}

/// The module of homogeneous vectors has a reduced basis, and then no element above the cap, or it has
/// an element above the cap. A reduced basis has a member of a degree over the cap exactly where
/// the module has an element above the cap, and such a member is one.
pub fn reduced_bases_or_above<F: Field, O: TermOrder>(_space: &Space<F, O>)
    ensures exists { let S = over F.field O.order _space.now in IsPositive S → (vs : List (Vect S.field))
        → AreHomogeneous S vs → (cap : ℕ) → let U = InModule S.field (listed S.field vs) in
        ((ws : List (Vect S.field)) × IsReducedBasisOf S U ws × NothingAbove S U cap) ⊎ SomeAbove S U cap }
    ensures member { let S = over F.field O.order _space.now in IsPositive S → (vs ws : List (Vect S.field))
        → AreHomogeneous S vs → ((w : Vect S.field) → In w vs → Supp S.field (FitsOrder S) w)
        → IsReducedBasis S (listed S.field vs) ws → (cap : ℕ) (w : Vect S.field) (t : Key) → In w ws
        → LeadBy S.field (key_order S) w t → cap < degree S t
        → IsAboveCap S (InModule S.field (listed S.field vs)) cap w t }
    ensures above { let S = over F.field O.order _space.now in IsPositive S → (vs ws : List (Vect S.field))
        → AreHomogeneous S vs → ((w : Vect S.field) → In w vs → Supp S.field (FitsOrder S) w)
        → IsReducedBasis S (listed S.field vs) ws → (cap : ℕ) (v : Vect S.field) (t : Key)
        → IsAboveCap S (InModule S.field (listed S.field vs)) cap v t
        → (w : Vect S.field) × (s : Key) × In w ws × LeadBy S.field (key_order S) w s × (cap < degree S s) }
{}

/// Elimination: by an elimination order the members of a Gröbner basis that have no key in the first
/// block generate all elements that have none there, and those of the reduced basis are their reduced
/// basis. (Derksen and Kemper, Computational Invariant Theory, section 1.2.)
pub fn elimination_bases<F: Field>(_space: &Space<F, ElimOrder>)
    ensures generates { let S = over F.field (λ o. elimination_order o.first o.weights.items) _space.now in
        let first = _space.now.order.first in length _space.now.order.weights.items ≡ length S.weights
        → IsPositive S → (vs fs : List (Vect S.field)) → AreHomogeneous S vs
        → ((w : Vect S.field) → In w vs → InVariables S.field (length S.weights) w)
        → IsGroebnerBasis S.field (listed S.field vs) (key_order S) → AreEliminated S.field first vs fs
        → (v : Vect S.field) → InModule S.field (listed S.field vs) v → IsEliminated S.field first v
        → InModule S.field (listed S.field fs) v }
    ensures reduced { let S = over F.field (λ o. elimination_order o.first o.weights.items) _space.now in
        let first = _space.now.order.first in length _space.now.order.weights.items ≡ length S.weights
        → IsPositive S → (vs ws fs : List (Vect S.field)) → AreHomogeneous S vs
        → ((w : Vect S.field) → In w vs → InVariables S.field (length S.weights) w)
        → ((w : Vect S.field) → In w vs → Supp S.field (FitsOrder S) w)
        → IsReducedBasis S (listed S.field vs) ws → AreEliminated S.field first ws fs
        → LeadsFall S.field (key_order S) fs
        → IsReducedBasisOf S (λ v. InModule S.field (listed S.field vs) v × IsEliminated S.field first v) fs }
{}
