ghost use Rattle.std.specs.Prelude.{◌≡◌, ◌↔◌, Bool, ℕ, List, All, map, length};
ghost use Rattle.alg_core.specs.Vectors.{Vect};
ghost use Rattle.alg_core.specs.Keys.{Key};
ghost use Rattle.poly_module.specs.Caps.{IsAboveCap};
ghost use Rattle.poly_module.specs.ReducedLists.{IsReducedBasis, IsReducedBasisOf};
ghost use Rattle.poly_module.specs.Modules.{InModule, listed};
ghost use Rattle.poly_module.specs.Parts.{InVariables};
ghost use Rattle.lin_algebra.specs.declared.matrix.Matrix.{Matrix};
ghost use Rattle.matrix_group.specs.Actions.{IsSquare, Invariant};
ghost use Rattle.finite_certificate.specs.MarkSpaces.{ArePositiveForms};
ghost use Rattle.finite_certificate.specs.StandardMonomials.{AreStandardMonomials, CoordinatesAreUnique};
ghost use Rattle.secondary_gens.specs.Secondaries.{IsComplete};
ghost use Rattle.syzygy_kernel.specs.Graphs.{InGraph, AreGenerators, graph_space, last_value};
ghost use Rattle.syzygy_kernel.specs.Kernels.{AreKernel, polynomial_of, fixed_values};
ghost use Rattle.syzygy_kernel.specs.declared.member.Member.{Member};

use alg_core::Field;

/// Where coordinates are unique, an element of the graph is determined by the value of its last part;
/// and elements with the standard monomials as such values generate the graph, as a module over the
/// polynomials in the marks.
pub fn graph_elements<F: Field>(_field: &F)
    ensures determined { let k = F.field _field.now in (n : ℕ) (θ : List (Vect k)) (gens : List (Matrix F.Elem)) (B : List (List ℕ))
        → AreStandardMonomials k n θ B → CoordinatesAreUnique k n θ → (v w : Vect k) → InGraph k θ gens B v → InGraph k θ gens B w
        → last_value k θ gens B v ≡ last_value k θ gens B w → v ≡ w }
    ensures generated { let k = F.field _field.now in (n : ℕ) (ds : List ℕ) (θ : List (Vect k)) (gens : List (Matrix F.Elem))
        (B : List (List ℕ)) (vs : List (Vect k)) → ArePositiveForms k n ds θ → All (Invariant k gens) θ → All (IsSquare k n) gens
        → AreStandardMonomials k n θ B → CoordinatesAreUnique k n θ → AreGenerators k θ gens B vs
        → (w : Vect k) → InGraph k θ gens B w ↔ (InModule k (listed k vs) w × InVariables k (length θ) w) }
{}

/// The reduced basis of the graph, and its elements above a cap, are those of the module of such elements.
pub fn graph_bases<F: Field>(_field: &F)
    ensures reduced { let k = F.field _field.now in (n : ℕ) (ds : List ℕ) (θ : List (Vect k)) (gens : List (Matrix F.Elem))
        (B : List (List ℕ)) (vs : List (Vect k)) → ArePositiveForms k n ds θ → All (Invariant k gens) θ → All (IsSquare k n) gens
        → AreStandardMonomials k n θ B → CoordinatesAreUnique k n θ → AreGenerators k θ gens B vs
        → (ws : List (Vect k)) → IsReducedBasis (graph_space k ds (length gens) B) (listed k vs) ws
        ↔ IsReducedBasisOf (graph_space k ds (length gens) B) (InGraph k θ gens B) ws }
    ensures above { let k = F.field _field.now in (n : ℕ) (ds : List ℕ) (θ : List (Vect k)) (gens : List (Matrix F.Elem))
        (B : List (List ℕ)) (vs : List (Vect k)) → ArePositiveForms k n ds θ → All (Invariant k gens) θ → All (IsSquare k n) gens
        → AreStandardMonomials k n θ B → CoordinatesAreUnique k n θ → AreGenerators k θ gens B vs
        → (cap : ℕ) (v : Vect k) (t : Key) → IsAboveCap (graph_space k ds (length gens) B) (InGraph k θ gens B) cap v t
        ↔ (IsAboveCap (graph_space k ds (length gens) B) (InModule k (listed k vs)) cap v t × InVariables k (length θ) v) }
{}

/// The values of the fixed members of kernel evidence are invariants, and generate all invariants over the
/// algebra of the primary invariants: every invariant, homogeneous or not, is a combination of them. The
/// characteristic is any, and nothing is asked of the order of the group.
/// (Derksen and Kemper, Computational Invariant Theory, section 3.5.)
pub fn fixed_members<F: Field>(_field: &F)
    ensures complete { let k = F.field _field.now in (n : ℕ) (ds : List ℕ) (θ : List (Vect k)) (gens : List (Matrix F.Elem))
        (B : List (List ℕ)) (ms : List (Member F.Elem)) → ArePositiveForms k n ds θ → All (Invariant k gens) θ
        → All (IsSquare k n) gens → AreStandardMonomials k n θ B → AreKernel k n ds θ gens B ms
        → IsComplete k n gens θ (fixed_values k n θ ms) }
    ensures invariant { let k = F.field _field.now in (n : ℕ) (ds : List ℕ) (θ : List (Vect k)) (gens : List (Matrix F.Elem))
        (B : List (List ℕ)) (ms : List (Member F.Elem)) → ArePositiveForms k n ds θ → All (Invariant k gens) θ
        → All (IsSquare k n) gens → AreStandardMonomials k n θ B → AreKernel k n ds θ gens B ms
        → All (Invariant k gens) (fixed_values k n θ ms) }
{}

/// There is one kernel list: of two, the polynomials are the same, and those that are named fixed.
pub fn kernel_lists<F: Field>(_field: &F)
    ensures polynomials { let k = F.field _field.now in (n : ℕ) (ds : List ℕ) (θ : List (Vect k)) (gens : List (Matrix F.Elem))
        (B : List (List ℕ)) (ms ls : List (Member F.Elem)) → ArePositiveForms k n ds θ → All (Invariant k gens) θ
        → All (IsSquare k n) gens → AreStandardMonomials k n θ B → AreKernel k n ds θ gens B ms → AreKernel k n ds θ gens B ls
        → map (polynomial_of k) ms ≡ map (polynomial_of k) ls }
    ensures names { let k = F.field _field.now in (n : ℕ) (ds : List ℕ) (θ : List (Vect k)) (gens : List (Matrix F.Elem))
        (B : List (List ℕ)) (ms ls : List (Member F.Elem)) → ArePositiveForms k n ds θ → All (Invariant k gens) θ
        → All (IsSquare k n) gens → AreStandardMonomials k n θ B → AreKernel k n ds θ gens B ms → AreKernel k n ds θ gens B ls
        → map (λ (m : Member F.Elem). m.is_fixed) ms ≡ map (λ (m : Member F.Elem). m.is_fixed) ls }
{}
