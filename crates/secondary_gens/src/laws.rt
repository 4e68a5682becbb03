ghost use Rattle.std.specs.Prelude.{◌≡◌, ◌≤◌, ◌<◌, ℕ, List, [], All, length};
ghost use Rattle.alg_core.specs.Lists.{In};
ghost use Rattle.alg_core.specs.SpaceGrading.{AllPositive, height};
ghost use Rattle.alg_core.specs.Spaces.{over};
ghost use Rattle.alg_core.specs.Vectors.{Vect, zero_vector};
ghost use Rattle.lin_algebra.specs.declared.matrix.Matrix.{Matrix};
ghost use Rattle.matrix_group.specs.Actions.{IsSquare, Invariant};
ghost use Rattle.poly_module.specs.Forms.{IsForm, AreForms};
ghost use Rattle.poly_module.specs.Combinations.{Over};
ghost use Rattle.poly_module.specs.Walks.{Keeps};
ghost use Rattle.secondary_gens.specs.Forms.{unit_weights};
ghost use Rattle.secondary_gens.specs.PrintedCombinations.{IsPrintedCombination};
ghost use Rattle.secondary_gens.specs.Secondaries.{IsComplete, IsIrredundant, AreSecondaries};

use alg_core::{Field, Space, TermOrder};

/// A walk along forms of degrees that do not fall, over forms of positive degree, keeps a list none of which
/// is a combination over the others.
/// (Derksen and Kemper, Computational Invariant Theory, section 3.5.)
pub fn kept_lists<F: Field, O: TermOrder>(_space: &Space<F, O>)
    ensures irredundant { let k = F.field _space.now.field in (ws ds es : List ℕ) (θ forms T : List (Vect k))
        → AreForms k ws ds θ → AllPositive ds → AreForms k ws es T
        → ((i j : ℕ) → i ≤ j → j < length es → height es i ≤ height es j)
        → Keeps (Over k θ) [] forms T → IsIrredundant k θ T }
{}

/// Every invariant, homogeneous or not, is a combination over the secondary invariants, and none of them is
/// one over the others. There is one list of them: invariant forms other than 0, of degrees that do not fall.
/// (Derksen and Kemper, Computational Invariant Theory, section 3.5.)
pub fn secondary_invariants<F: Field, O: TermOrder>(_space: &Space<F, O>)
    ensures complete { let S = over F.field O.order _space.now in (gens : List (Matrix F.Elem))
        → All (IsSquare S.field (length S.weights)) gens → (θ T : List (Vect S.field))
        → AreSecondaries S gens θ T → IsComplete S.field (length S.weights) gens θ T }
    ensures unique { let S = over F.field O.order _space.now in (gens : List (Matrix F.Elem))
        → (θ T U : List (Vect S.field)) → AreSecondaries S gens θ T → AreSecondaries S gens θ U → T ≡ U }
    ensures irredundant { let S = over F.field O.order _space.now in (gens : List (Matrix F.Elem))
        → (θ T : List (Vect S.field)) → AreSecondaries S gens θ T
        → (ds : List ℕ) → AreForms S.field (unit_weights S) ds θ → AllPositive ds → IsIrredundant S.field θ T }
    ensures rise { let S = over F.field O.order _space.now in (gens : List (Matrix F.Elem))
        → (θ T : List (Vect S.field)) → AreSecondaries S gens θ T
        → (es : List ℕ) × AreForms S.field (unit_weights S) es T
        × ((i j : ℕ) → i ≤ j → j < length es → height es i ≤ height es j) }
    ensures member { let S = over F.field O.order _space.now in (gens : List (Matrix F.Elem))
        → (θ T : List (Vect S.field)) → AreSecondaries S gens θ T
        → (v : Vect S.field) → In v T → Invariant S.field gens v × ¬ (v ≡ zero_vector S.field) }
{}

/// Of all combinations whose value is a form just one is printed, wherever there is any.
pub fn printed_combinations<F: Field>(_field: &F)
    ensures unique { let k = F.field _field.now in (ws ds es : List ℕ) (θ S : List (Vect k))
        → AreForms k ws ds θ → AreForms k ws es S → (f c d : Vect k)
        → IsPrintedCombination k ds es θ S f c → IsPrintedCombination k ds es θ S f d → c ≡ d }
    ensures exists { let k = F.field _field.now in (ws ds es : List ℕ) (θ S : List (Vect k))
        → AreForms k ws ds θ → AllPositive ds → AreForms k ws es S → (d : ℕ) (f : Vect k) → IsForm k ws d f
        → Over k θ S f → (c : Vect k) × IsPrintedCombination k ds es θ S f c }
{}
