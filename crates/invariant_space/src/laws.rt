ghost use Rattle.std.specs.Prelude.{◌≡◌, ℕ, List};
ghost use Rattle.alg_core.specs.Spaces.{over};
ghost use Rattle.alg_core.specs.Vectors.{Vect};
ghost use Rattle.lin_algebra.specs.declared.matrix.Matrix.{Matrix};
ghost use Rattle.invariant_space.specs.InvariantSpaces.{IsEchelonBasis};

use alg_core::{Field, Space, TermOrder};

/// The invariants of a degree have one echelon basis.
pub fn echelon_bases<F: Field, O: TermOrder>(_space: &Space<F, O>)
    ensures unique { let S = over F.field O.order _space.now in (gens : List (Matrix F.Elem)) (d : ℕ) (vs ws : List (Vect S.field))
        → IsEchelonBasis S gens d vs → IsEchelonBasis S gens d ws → vs ≡ ws }
{}
