ghost use Rattle.std.specs.Prelude.{◌≡◌, ◌⊎◌, ◌↔◌, ◌<◌, ◌≤◌, ◌+◌, ◌++◌, ◌∷◌, ℕ, Bool, true, false, List, [], filter, length, replicate};
ghost use Rattle.std.specs.declared.cmp.Ordering.TheVariants.{Less};
ghost use Rattle.alg_core.specs.Rings.{Linear};
ghost use Rattle.std.specs.Int.{◌∣◌};
ghost use Rattle.alg_core.specs.Fields.{Scalar, scalars, is_field, ones};
ghost use Rattle.alg_core.specs.FormalSums.{FormalSum};
ghost use Rattle.alg_core.specs.FreeModules.{single, class};
ghost use Rattle.alg_core.specs.Keys.{TermPlace, Key, key_same, KeyDivides};
ghost use Rattle.alg_core.specs.KeyOrders.{OrderOn};
ghost use Rattle.alg_core.specs.CanonicalLists.{IsCanonical, IsLead, terms};
ghost use Rattle.alg_core.specs.Vectors.{Entry, Vect, vectors, formal_sum, vec, plus, zero_vector, coef_at};
ghost use Rattle.alg_core.specs.Monomials.{Mon, monomials, Divides};
ghost use Rattle.alg_core.specs.CommonMultiples.{mon_lcm, common_multiple};
ghost use Rattle.alg_core.specs.Spaces.{over, IsPlace, Fits};
ghost use Rattle.alg_core.specs.PolynomialSpaces.{plain_space, marked_space};
ghost use Rattle.alg_core.specs.SpaceOrder.{key_order, key_compare};
ghost use Rattle.alg_core.specs.VectorEntries.{IsOver, entries_of};
ghost use Rattle.alg_core.specs.SpaceGrading.{AllPositive, weight, degree, rank};
ghost use Rattle.alg_core.specs.Lists.{In};
ghost use Rattle.alg_core.specs.KeyLists.{Falls, place_degree, places_up_to, InSpace, keys_up_to, keys_of_degree};
ghost use Rattle.alg_core.specs.Binomials.{monomials_of_degree};
ghost use Rattle.alg_core.specs.DpOrder.{dp_order};
ghost use Rattle.alg_core.specs.BlockOrder.{block_order};
ghost use Rattle.alg_core.specs.EliminationOrder.{elimination_order};
ghost use Rattle.alg_core.specs.MonomialParts.{variable_part, mark_part, as_marks};

use crate::{Field, Space, TermOrder};

/// Sums of vectors commute and associate, and zero changes nothing.
pub fn vector_sums<F: Field>(_field: &F)
    ensures comm { let k = F.field _field.now in (x y : Vect k) → plus k x y ≡ plus k y x }
    ensures assoc { let k = F.field _field.now in (x y z : Vect k) → plus k (plus k x y) z ≡ plus k x (plus k y z) }
    ensures zero { let k = F.field _field.now in (x : Vect k) → plus k x (zero_vector k) ≡ x }
{}

/// Two vectors with the same coefficients are equal.
pub fn vectors_are_maps<F: Field>(_field: &F)
    ensures same { let k = F.field _field.now in (x y : Vect k) → ((t : Key) → coef_at k x t ≡ coef_at k y t) → x ≡ y }
{}

/// Two linear functions of vectors that agree on the single keys agree.
pub fn linear_functions<F: Field>(_field: &F)
    ensures unique { let k = F.field _field.now in
        (f g : Vect k → Vect k) → Linear (vectors k) (vectors k) f → Linear (vectors k) (vectors k) g
        → ((t : Key) → f (single (scalars k) key_same t) ≡ g (single (scalars k) key_same t)) → (x : Vect k) → f x ≡ g x }
{}

/// By any total order of the keys each vector but zero has exactly one lead, and the terms of a
/// vector are its one list that falls strictly and has no coefficient zero.
pub fn vector_terms<F: Field>(_field: &F)
    ensures lead { let k = F.field _field.now in (o : OrderOn Key) (x : Vect k)
        → (x ≡ zero_vector k) ⊎ ((t : Key) × IsLead (scalars k) (is_field k) key_same o x t) }
    ensures one_lead { let k = F.field _field.now in (o : OrderOn Key) (x : Vect k) (s t : Key)
        → IsLead (scalars k) (is_field k) key_same o x s → IsLead (scalars k) (is_field k) key_same o x t → s ≡ t }
    ensures canonical { let k = F.field _field.now in (o : OrderOn Key) (x : Vect k)
        → IsCanonical (scalars k) (is_field k) key_same o (terms (scalars k) (is_field k) key_same o x) }
    ensures whole { let k = F.field _field.now in (o : OrderOn Key) (x : Vect k)
        → class (scalars k) key_same (terms (scalars k) (is_field k) key_same o x) ≡ x }
    ensures only { let k = F.field _field.now in (o : OrderOn Key) (l : FormalSum (Scalar k) Key)
        → IsCanonical (scalars k) (is_field k) key_same o l
        → terms (scalars k) (is_field k) key_same o (class (scalars k) key_same l) ≡ l }
{}

/// The least common multiple of two monomials is a multiple of both and divides each common multiple.
pub fn common_multiples()
    ensures left { (a b : Mon) → Divides a (mon_lcm a b) }
    ensures right { (a b : Mon) → Divides b (mon_lcm a b) }
    ensures least { (a b c : Mon) → Divides a c → Divides b c → Divides (mon_lcm a b) c }
{}

/// So is that of two keys of one position.
pub fn common_key_multiples()
    ensures left { (s t : Key) → KeyDivides s (common_multiple s t) }
    ensures right { (s t : Key) → s.0 ≡ t.0 → KeyDivides t (common_multiple s t) }
    ensures least { (s t u : Key) → KeyDivides s u → KeyDivides t u → KeyDivides (common_multiple s t) u }
{}

/// A sum of ones is zero exactly where the characteristic divides their number.
pub fn sums_of_ones<F: Field>(_field: &F)
    ensures zero { let k = F.field _field.now in (n : ℕ) → (ones k n ≡ k.zero) ↔ (k.characteristic ∣ n) }
{}

/// Each monomial in n variables and marks is its part in the variables times its part in the marks; the
/// parts of a product are the products of the parts, and degrees add.
pub fn monomial_parts()
    ensures whole { (n : ℕ) (m : Mon) → monomials.◌·◌ (variable_part n m) (as_marks n (mark_part n m)) ≡ m }
    ensures variables { (n : ℕ) (m : Mon) → length m.0 ≤ n → (variable_part n m ≡ m) × (mark_part n m ≡ monomials.one) }
    ensures marks { (n : ℕ) (m : Mon) → (variable_part n (as_marks n m) ≡ monomials.one) × (mark_part n (as_marks n m) ≡ m) }
    ensures variables_product { (n : ℕ) (a b : Mon)
        → variable_part n (monomials.◌·◌ a b) ≡ monomials.◌·◌ (variable_part n a) (variable_part n b) }
    ensures marks_product { (n : ℕ) (a b : Mon) → mark_part n (monomials.◌·◌ a b) ≡ monomials.◌·◌ (mark_part n a) (mark_part n b) }
    ensures product { (n : ℕ) (a b : Mon) → as_marks n (monomials.◌·◌ a b) ≡ monomials.◌·◌ (as_marks n a) (as_marks n b) }
    ensures degree { (ws ds : List ℕ) (m : Mon) → let n = length ws in length m.0 ≤ n + length ds
        → weight (ws ++ ds) 0 m.0 ≡ weight ws 0 (variable_part n m).0 + weight ds 0 (mark_part n m).0 }
    ensures marks_degree { (ws ds : List ℕ) (m : Mon) → length m.0 ≤ length ds
        → weight (ws ++ ds) 0 (as_marks (length ws) m).0 ≡ weight ds 0 m.0 }
{}

/// On keys in n variables and the marks the block order puts a key with a smaller degree in the variables
/// lower; on keys in the variables alone it is the degree reverse lexicographic order.
pub fn block_orders()
    ensures smaller { (n : ℕ) (ws : List ℕ) (s t : Key) → length s.1.0 ≤ n + length ws → length t.1.0 ≤ n + length ws
        → weight (replicate n 1) 0 (variable_part n s.1).0 < weight (replicate n 1) 0 (variable_part n t.1).0
        → key_compare (n + length ws) (block_order n ws) s t ≡ Less }
    ensures variables { (n : ℕ) (ws : List ℕ) (s t : Key) → length s.1.0 ≤ n → length t.1.0 ≤ n
        → key_compare (n + length ws) (block_order n ws) s t ≡ key_compare n (dp_order (replicate n 1)) s t }
{}

/// On keys in the variables of a space, those below a key of the second block are of the second block;
/// inside a block the elimination order is the degree reverse lexicographic order, then the earlier position.
pub fn elimination_orders()
    ensures second { (first : ℕ) (ws : List ℕ) (s t : Key) → let n = length ws in length s.1.0 ≤ n → length t.1.0 ≤ n
        → first ≤ t.0 → key_compare n (elimination_order first ws) s t ≡ Less → first ≤ s.0 }
    ensures inside_first { (first : ℕ) (ws : List ℕ) (s t : Key) → let n = length ws in s.0 < first → t.0 < first
        → key_compare n (elimination_order first ws) s t ≡ key_compare n (dp_order ws) s t }
    ensures inside_second { (first : ℕ) (ws : List ℕ) (s t : Key) → let n = length ws in first ≤ s.0 → first ≤ t.0
        → key_compare n (elimination_order first ws) s t ≡ key_compare n (dp_order ws) s t }
{}

/// A list of terms that fits a space is told by its vector: it is the canonical list of the vector by
/// the order of the space.
pub fn fitting_lists<F: Field, O: TermOrder>(_space: &Space<F, O>)
    ensures unique { let S = over F.field O.order _space.now in
        (es fs : List (Entry F.Elem)) → Fits S es → Fits S fs → vec S.field es ≡ vec S.field fs → es ≡ fs }
    ensures terms { let S = over F.field O.order _space.now in
        (es : List (Entry F.Elem)) → Fits S es
        → terms (scalars S.field) (is_field S.field) key_same (key_order S) (vec S.field es) ≡ formal_sum S.field es }
{}

/// Where no weight of the grading is 0, the keys of one degree are finitely many: each has a number,
/// and the numbers rise with the order of the space.
pub fn finite_degrees<F: Field, O: TermOrder>(_space: &Space<F, O>)
    ensures rises { let S = over F.field O.order _space.now in
        (positive : AllPositive S.weights) (s t : Key) → degree S s ≡ degree S t
        → (key_order S).compare s t ≡ Less → rank S positive s < rank S positive t }
{}

/// Where no weight of the grading is 0, the keys of a space up to a degree, and those of one degree, are
/// a finite list, which falls: so each stands there once, and after it all that are smaller. A test that
/// passes one member less leaves a shorter list. Where each variable has the weight 1, the keys of a
/// degree at position 0 are as many as the binomial coefficient says.
pub fn key_lists<F: Field, O: TermOrder>(_space: &Space<F, O>)
    ensures up_to { let S = over F.field O.order _space.now in AllPositive S.weights
        → (d : ℕ) (t : Key) → In t (keys_up_to S d) ↔ (InSpace S t × (degree S t ≤ d)) }
    ensures of_degree { let S = over F.field O.order _space.now in AllPositive S.weights
        → (d : ℕ) (t : Key) → In t (keys_of_degree S d) ↔ (InSpace S t × (degree S t ≡ d)) }
    ensures places { (ws ss : List ℕ) (d : ℕ) → AllPositive ws → (p : TermPlace) → In p (places_up_to ws ss d)
        ↔ ((length p.1 ≡ length ws) × (p.0 < length ss) × (place_degree ws ss p ≤ d)) }
    ensures up_to_falls { let S = over F.field O.order _space.now in (d : ℕ) → Falls (key_order S) (keys_up_to S d) }
    ensures of_degree_falls { let S = over F.field O.order _space.now in (d : ℕ) → Falls (key_order S) (keys_of_degree S d) }
    ensures after { let o = key_order (over F.field O.order _space.now) in (s t : Key) (front back : List Key)
        → Falls o (front ++ t ∷ back) → In s (front ++ t ∷ back) → o.compare s t ≡ Less → In s back }
    ensures fewer { (f g : Key → Bool) (l : List Key) (t : Key) → ((s : Key) → f s ≡ true → g s ≡ true)
        → In t l → f t ≡ false → g t ≡ true → length (filter f l) < length (filter g l) }
    ensures count { let S = over F.field O.order _space.now in let n = length S.weights in
        S.weights ≡ replicate n 1 → S.shifts ≡ 0 ∷ [] → S.order.fits 0 n ≡ true → 0 < n
        → (d : ℕ) → length (keys_of_degree S d) ≡ monomials_of_degree n d }
{}

/// The vectors whose keys are those of places of a space are those of the lists of terms that fit the
/// space, each of one list.
pub fn vector_lists<F: Field, O: TermOrder>(_space: &Space<F, O>)
    ensures over { let S = over F.field O.order _space.now in (es : List (Entry F.Elem)) → Fits S es → IsOver S (vec S.field es) }
    ensures fits { let S = over F.field O.order _space.now in (v : Vect S.field) → IsOver S v → Fits S (entries_of S v) }
    ensures is { let S = over F.field O.order _space.now in (v : Vect S.field) → IsOver S v → vec S.field (entries_of S v) ≡ v }
    ensures only { let S = over F.field O.order _space.now in (es : List (Entry F.Elem)) → Fits S es → entries_of S (vec S.field es) ≡ es }
{}

/// The spaces of polynomials in variables of degree 1, and in such variables and marks of positive degrees,
/// have constants and positive orders and gradings.
pub fn polynomial_spaces<F: Field>(_field: &F)
    ensures plain { let k = F.field _field.now in (n : ℕ) → let S = plain_space k n in
        IsPlace S (0, replicate n 0) × (S.order.is_positive ≡ true) × AllPositive S.weights }
    ensures marked { let k = F.field _field.now in (n : ℕ) (ds : List ℕ) → AllPositive ds → let S = marked_space k n ds in
        IsPlace S (0, replicate (n + length ds) 0) × (S.order.is_positive ≡ true) × AllPositive S.weights }
{}
