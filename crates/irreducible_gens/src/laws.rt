ghost use Rattle.std.specs.Prelude.{◌≡◌, ◌≤◌, ◌<◌, ◌++◌, ℕ, List, length};
ghost use Rattle.alg_core.specs.Lists.{In};
ghost use Rattle.alg_core.specs.SpaceGrading.{AllPositive, height};
ghost use Rattle.alg_core.specs.Vectors.{Vect};
ghost use Rattle.poly_module.specs.Combinations.{Over};
ghost use Rattle.poly_module.specs.Forms.{AreForms};
ghost use Rattle.poly_module.specs.Modules.{IsSubspace};
ghost use Rattle.irreducible_gens.specs.Algebras.{InAlgebra};
ghost use Rattle.irreducible_gens.specs.Irreducibles.{members, AreIrreducibles, IsIrreducible};
ghost use Rattle.irreducible_gens.specs.Words.{IsPrintedWord};

use alg_core::{Field, Space, TermOrder};

/// What is a polynomial in given polynomials has sums and multiples and these polynomials themselves; a
/// combination over the primary invariants of such polynomials is one.
pub fn algebras<F: Field, O: TermOrder>(_space: &Space<F, O>)
    ensures subspace { let k = F.field _space.now.field in (θ Q : List (Vect k)) → IsSubspace k (InAlgebra k θ Q) }
    ensures generator { let k = F.field _space.now.field in (θ Q : List (Vect k)) (f : Vect k) → In f (θ ++ Q) → InAlgebra k θ Q f }
    ensures combination { let k = F.field _space.now.field in (θ Q T : List (Vect k)) → ((s : Vect k) → In s T → InAlgebra k θ Q s)
        → (f : Vect k) → Over k θ T f → InAlgebra k θ Q f }
{}

/// There is one list of places of irreducible generators. Over forms of positive degree, among forms of
/// degrees that do not fall, the members at these places have positive degree and generate all of them, and
/// none is superfluous.
/// (Derksen and Kemper, Computational Invariant Theory, section 3.6.)
pub fn chosen_places<F: Field, O: TermOrder>(_space: &Space<F, O>)
    ensures one { let k = F.field _space.now.field in (θ T : List (Vect k)) (ps qs : List ℕ)
        → AreIrreducibles k θ T ps → AreIrreducibles k θ T qs → ps ≡ qs }
    ensures irreducible { let k = F.field _space.now.field in (ws ds es : List ℕ) (θ T : List (Vect k)) (ps : List ℕ)
        → AllPositive ws → AreForms k ws ds θ → AllPositive ds → AreForms k ws es T
        → ((i j : ℕ) → i ≤ j → j < length es → height es i ≤ height es j)
        → AreIrreducibles k θ T ps → IsIrreducible k θ ws T (members k T ps) }
{}

/// Over forms there is at most one word that is printed for a polynomial.
pub fn printed_words<F: Field, O: TermOrder>(_space: &Space<F, O>)
    ensures one { let k = F.field _space.now.field in (ws ds es : List ℕ) (θ Q : List (Vect k)) → AreForms k ws ds θ
        → AreForms k ws es Q → (f u w : Vect k) → IsPrintedWord k (ds ++ es) θ Q f u → IsPrintedWord k (ds ++ es) θ Q f w → u ≡ w }
{}
