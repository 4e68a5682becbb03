ghost use Rattle.std.specs.Prelude.{◌≡◌, ◌<◌, ◌≤◌, ◌+◌, ℕ, List, ◌++◌, map, length, Bool, true};
ghost use Rattle.std.specs.declared.cmp.Ordering.TheVariants.{Less};
ghost use Rattle.alg_core.specs.Rings.{Homomorphism};
ghost use Rattle.alg_core.specs.Fields.{Scalar, scalars};
ghost use Rattle.alg_core.specs.Monomials.{Mon};
ghost use Rattle.alg_core.specs.Keys.{Key, keys, times_key};
ghost use Rattle.alg_core.specs.KeyOrders.{OrderOn};
ghost use Rattle.alg_core.specs.Lists.{In};
ghost use Rattle.alg_core.specs.Vectors.{Vect, vectors, coef_at, plus, zero_vector, scale, shift};
ghost use Rattle.alg_core.specs.Spaces.{over};
ghost use Rattle.alg_core.specs.SpaceOrder.{key_order};
ghost use Rattle.alg_core.specs.SpaceGrading.{weight, degree};
ghost use Rattle.poly_module.specs.Signs.{minus};
ghost use Rattle.poly_module.specs.Polynomials.{single_vector, one_vector, product, vector_ring, vector_algebra};
ghost use Rattle.poly_module.specs.Substitutions.{image, monomial_value, variable_vector, position_vector, substitute};
ghost use Rattle.poly_module.specs.Parts.{Supp, select, passing, IsPolynomial, InVariables};
ghost use Rattle.poly_module.specs.Variables.{variables};
ghost use Rattle.poly_module.specs.Degrees.{IsGraded, parts_below, IsHomogeneous, part, IsDegree, HasDegree};
ghost use Rattle.poly_module.specs.Forms.{key_weight, IsForm, form_part, AreForms};
ghost use Rattle.poly_module.specs.Modules.{IsSubspace, InModule, summands, listed, IsGroebnerBasis, LeadBy};
ghost use Rattle.poly_module.specs.ReducedLists.{FitsOrder, IsReducedBasis};
ghost use Rattle.alg_core.specs.Spans.{combine, Independent, Greedy};
ghost use Rattle.poly_module.specs.Echelons.{Spans, IsEchelon};
ghost use Rattle.poly_module.specs.Combinations.{mark_value, term_value, combination_value, Over, combination_degree};

use alg_core::{Field, Space, TermOrder};

/// The product of vectors is that of a commutative ring, linear in each factor; at single keys it
/// multiplies the keys, and a multiple by a monomial is a product with it. A difference and what was
/// taken away add up.
pub fn vector_products<F: Field>(_field: &F)
    ensures comm { let k = F.field _field.now in (u v : Vect k) → product k u v ≡ product k v u }
    ensures assoc { let k = F.field _field.now in (u v w : Vect k) → product k (product k u v) w ≡ product k u (product k v w) }
    ensures one { let k = F.field _field.now in (u : Vect k) → product k u (one_vector k) ≡ u }
    ensures sum { let k = F.field _field.now in (u v w : Vect k) → product k u (plus k v w) ≡ plus k (product k u v) (product k u w) }
    ensures multiple { let k = F.field _field.now in (c : F.Elem) (u v : Vect k) → product k u (scale k c v) ≡ scale k c (product k u v) }
    ensures single { let k = F.field _field.now in
        (s t : Key) → product k (single_vector k s) (single_vector k t) ≡ single_vector k (keys.◌·◌ s t) }
    ensures monomial { let k = F.field _field.now in (m : Mon) (v : Vect k) → shift k m v ≡ product k (single_vector k (0, m)) v }
    ensures ring { let k = F.field _field.now in (u v : Vect k) → (vector_ring k).◌*◌ u v ≡ product k u v }
    ensures difference { let k = F.field _field.now in (u v : Vect k) → plus k (minus k u v) v ≡ u }
{}

/// A substitution is the one homomorphism with its images, at which positions count for nothing; one
/// after another is one; the variables for themselves change no polynomial in them.
pub fn substitutions<F: Field>(_field: &F)
    ensures homomorphism { let k = F.field _field.now in
        (xs : List (Vect k)) → Homomorphism (vector_algebra k) (vector_algebra k) (substitute k xs) }
    ensures variable { let k = F.field _field.now in
        (xs : List (Vect k)) (i : ℕ) → substitute k xs (variable_vector k i) ≡ image (vector_ring k) xs i }
    ensures single { let k = F.field _field.now in
        (xs : List (Vect k)) (t : Key) → substitute k xs (single_vector k t) ≡ monomial_value (vector_ring k) xs t.1.0 }
    ensures unique { let k = F.field _field.now in
        (xs : List (Vect k)) (f : Vect k → Vect k) → Homomorphism (vector_algebra k) (vector_algebra k) f
        → ((i : ℕ) → f (variable_vector k i) ≡ image (vector_ring k) xs i) → f (position_vector k) ≡ one_vector k
        → (u : Vect k) → f u ≡ substitute k xs u }
    ensures after { let k = F.field _field.now in
        (ys xs : List (Vect k)) (u : Vect k) → substitute k ys (substitute k xs u) ≡ substitute k (map (substitute k ys) xs) u }
    ensures same { let k = F.field _field.now in
        (n : ℕ) (u : Vect k) → IsPolynomial k u → InVariables k n u → substitute k (variables k n) u ≡ u }
{}

/// The part of a vector at the keys that pass a test has its coefficients there and 0 elsewhere.
pub fn selections<F: Field>(_field: &F)
    ensures inside { let k = F.field _field.now in
        (f : Key → Bool) (v : Vect k) (t : Key) → f t ≡ true → coef_at k (select k (passing f) v) t ≡ coef_at k v t }
    ensures outside { let k = F.field _field.now in
        (f : Key → Bool) (v : Vect k) (t : Key) → ¬ (f t ≡ true) → coef_at k (select k (passing f) v) t ≡ (scalars k).zero }
    ensures all { let k = F.field _field.now in
        (f : Key → Bool) (v : Vect k) → Supp k (λ t. f t ≡ true) v → select k (passing f) v ≡ v }
{}

/// Each vector but zero has one degree and is the sum of its parts; the parts of a multiple by a form
/// are the multiples of the parts.
pub fn vector_degrees<F: Field, O: TermOrder>(_space: &Space<F, O>)
    ensures exists { let S = over F.field O.order _space.now in (v : Vect S.field) → HasDegree S v }
    ensures unique { let S = over F.field O.order _space.now in (v : Vect S.field) (d e : ℕ) → IsDegree S v d → IsDegree S v e → d ≡ e }
    ensures part { let S = over F.field O.order _space.now in (d : ℕ) (v : Vect S.field) → IsHomogeneous S d (part S d v) }
    ensures sum { let S = over F.field O.order _space.now in
        (v : Vect S.field) (d : ℕ) → IsDegree S v d → parts_below S.field (degree S) (d + 1) v ≡ v }
    ensures product { let S = over F.field O.order _space.now in
        (d : ℕ) (f : Vect S.field) → IsForm S.field S.weights d f → (e : ℕ) (v : Vect S.field)
        → part S (d + e) (product S.field f v) ≡ product S.field f (part S e v) }
{}

/// The lead of a multiple by a monomial is the multiple of the lead, that of a multiple by a polynomial the
/// multiple by its lead; smaller keys change no lead, and where lead terms cancel the lead is smaller.
pub fn vector_leads<F: Field, O: TermOrder>(_space: &Space<F, O>)
    ensures multiple { let S = over F.field O.order _space.now in (m : Mon) (v : Vect S.field) (t : Key)
        → LeadBy S.field (key_order S) v t → LeadBy S.field (key_order S) (shift S.field m v) (times_key m t) }
    ensures product { let S = over F.field O.order _space.now in (f v : Vect S.field) (m : Mon) (t : Key)
        → IsPolynomial S.field f → LeadBy S.field (key_order S) f (0, m) → LeadBy S.field (key_order S) v t
        → LeadBy S.field (key_order S) (product S.field f v) (times_key m t) }
    ensures sum { let S = over F.field O.order _space.now in (u v : Vect S.field) (t : Key)
        → LeadBy S.field (key_order S) u t → Supp S.field (λ s. (key_order S).compare s t ≡ Less) v
        → LeadBy S.field (key_order S) (plus S.field u v) t }
    ensures cancelled { let S = over F.field O.order _space.now in (u v : Vect S.field) (t r : Key)
        → LeadBy S.field (key_order S) u t → LeadBy S.field (key_order S) v t
        → (scalars S.field).◌+◌ (coef_at S.field u t) (coef_at S.field v t) ≡ (scalars S.field).zero
        → LeadBy S.field (key_order S) (plus S.field u v) r → (key_order S).compare r t ≡ Less }
{}

/// Degrees of forms add in products, and forms for the variables take forms to forms.
pub fn form_degrees<F: Field>(_field: &F)
    ensures product { let k = F.field _field.now in (ws : List ℕ) (d e : ℕ) (f g : Vect k)
        → IsForm k ws d f → IsForm k ws e g → IsForm k ws (d + e) (product k f g) }
    ensures value { let k = F.field _field.now in (ws ds : List ℕ) (fs : List (Vect k)) → AreForms k ws ds fs
        → (d : ℕ) (u : Vect k) → IsGraded k (key_weight ds) d u → InVariables k (length fs) u → IsForm k ws d (substitute k fs u) }
{}

/// The elements of a module: it has its members, sums, polynomial multiples and, where its members are
/// homogeneous, parts; an element of one degree is a sum of multiples of members that all have it.
pub fn module_elements<F: Field, O: TermOrder>(_space: &Space<F, O>)
    ensures subspace { let k = F.field _space.now.field in (g : ℕ → Vect k) → IsSubspace k (InModule k g) }
    ensures member { let k = F.field _space.now.field in (g : ℕ → Vect k) (i : ℕ) → InModule k g (g i) }
    ensures product { let k = F.field _space.now.field in
        (g : ℕ → Vect k) (f v : Vect k) → IsPolynomial k f → InModule k g v → InModule k g (product k f v) }
    ensures summands { let k = F.field _space.now.field in (g : ℕ → Vect k) (v : Vect k) → InModule k g v
        → (l : List (Scalar k × Mon × ℕ)) × (summands k g l ≡ v) }
    ensures part { let S = over F.field O.order _space.now in (g : ℕ → Vect S.field) (d : ℕ → ℕ)
        → ((i : ℕ) → IsHomogeneous S (d i) (g i)) → (e : ℕ) (v : Vect S.field) → InModule S.field g v → InModule S.field g (part S e v) }
    ensures homogeneous { let S = over F.field O.order _space.now in (g : ℕ → Vect S.field) (d : ℕ → ℕ)
        → ((i : ℕ) → IsHomogeneous S (d i) (g i)) → (n : ℕ) (v : Vect S.field) → IsHomogeneous S n v → InModule S.field g v
        → (l : List (Scalar S.field × Mon × ℕ)) × ((e : Scalar S.field × Mon × ℕ) → In e l → weight S.weights 0 e.1.0 + d e.2 ≡ n)
        × (summands S.field g l ≡ v) }
{}

/// By a positive order a module has at most one reduced basis, and that is a basis; its members are
/// homogeneous where the generators are.
pub fn reduced_bases<F: Field, O: TermOrder>(_space: &Space<F, O>)
    ensures unique { let S = over F.field O.order _space.now in S.order.is_positive ≡ true
        → (g : ℕ → Vect S.field) → ((i : ℕ) → Supp S.field (FitsOrder S) (g i))
        → (vs ws : List (Vect S.field)) → IsReducedBasis S g vs → IsReducedBasis S g ws → vs ≡ ws }
    ensures basis { let S = over F.field O.order _space.now in (g : ℕ → Vect S.field)
        → (vs : List (Vect S.field)) → IsReducedBasis S g vs → IsGroebnerBasis S.field (listed S.field vs) (key_order S) }
    ensures homogeneous { let S = over F.field O.order _space.now in (g : ℕ → Vect S.field) (d : ℕ → ℕ)
        → ((i : ℕ) → IsHomogeneous S (d i) (g i)) → S.order.is_positive ≡ true → ((i : ℕ) → Supp S.field (FitsOrder S) (g i))
        → (vs : List (Vect S.field)) → IsReducedBasis S g vs
        → (v : Vect S.field) (t : Key) → In v vs → LeadBy S.field (key_order S) v t → IsHomogeneous S (degree S t) v }
{}

/// A finite list of vectors has one reduced echelon list, whether a vector lies in its span is decided,
/// and each vector is the sum of one in the span and one in which no lead of the span is a key.
pub fn echelon_lists<F: Field, O: TermOrder>(_space: &Space<F, O>)
    ensures exists { let k = F.field _space.now.field in (o : OrderOn Key) (vs : List (Vect k))
        → (ws : List (Vect k)) × IsEchelon k o (Spans k vs) ws }
    ensures unique { let k = F.field _space.now.field in (o : OrderOn Key) (us vs ws : List (Vect k))
        → IsEchelon k o (Spans k us) vs → IsEchelon k o (Spans k us) ws → vs ≡ ws }
    ensures decided { let k = F.field _space.now.field in (vs : List (Vect k)) (v : Vect k) → Dec (Spans k vs v) }
    ensures split { let k = F.field _space.now.field in (o : OrderOn Key) (vs : List (Vect k)) (v : Vect k)
        → (s : Vect k) × (g : Vect k) × Spans k vs s × (plus k g s ≡ v)
        × ((w : Vect k) (t : Key) → Spans k vs w → LeadBy k o w t → coef_at k g t ≡ (scalars k).zero) }
{}

/// The reduced echelon list of a span is independent, and independent lists with the same span have the
/// same length.
pub fn independent_lists<F: Field, O: TermOrder>(_space: &Space<F, O>)
    ensures echelon { let k = F.field _space.now.field in (o : OrderOn Key) (vs ws : List (Vect k))
        → IsEchelon k o (Spans k vs) ws → Independent (vectors k) ws }
    ensures length { let k = F.field _space.now.field in (us ws : List (Vect k)) → Independent (vectors k) us → Independent (vectors k) ws
        → ((u : Vect k) → In u us → Spans k ws u) → ((w : Vect k) → In w ws → Spans k us w) → length us ≡ length ws }
{}

/// Of all combinations of a list of vectors with one sum just one gives the coefficient 0 to each
/// member that lies in the span of those before it.
pub fn greedy_choices<F: Field, O: TermOrder>(_space: &Space<F, O>)
    ensures exists { let k = F.field _space.now.field in (ws : List (Vect k)) (v : Vect k) → Spans k ws v
        → (cs : List (Scalar k)) × Greedy (vectors k) ws cs × (combine (vectors k) cs ws ≡ v) }
    ensures unique { let k = F.field _space.now.field in (ws : List (Vect k)) (cs ds : List (Scalar k))
        → Greedy (vectors k) ws cs → Greedy (vectors k) ws ds → combine (vectors k) cs ws ≡ combine (vectors k) ds ws → cs ≡ ds }
{}

/// The value of a combination is additive, and a multiple by a polynomial in the marks goes to the
/// multiple by its value; what is a combination over given polynomials has sums, such multiples and,
/// over forms, parts.
pub fn combinations<F: Field>(_field: &F)
    ensures term { let k = F.field _field.now in (θ S : List (Vect k)) (t : Key)
        → combination_value k θ S (single_vector k t) ≡ term_value k θ S t }
    ensures sum { let k = F.field _field.now in (θ S : List (Vect k)) (c d : Vect k)
        → combination_value k θ S (plus k c d) ≡ plus k (combination_value k θ S c) (combination_value k θ S d) }
    ensures product { let k = F.field _field.now in (θ S : List (Vect k)) (a c : Vect k) → IsPolynomial k a
        → combination_value k θ S (product k a c) ≡ product k (substitute k θ a) (combination_value k θ S c) }
    ensures degree { let k = F.field _field.now in (ws ds es : List ℕ) (θ S : List (Vect k)) → AreForms k ws ds θ → AreForms k ws es S
        → (d : ℕ) (c : Vect k) → IsGraded k (combination_degree ds es) d c → InVariables k (length θ) c
        → IsForm k ws d (combination_value k θ S c) }
    ensures subspace { let k = F.field _field.now in (θ S : List (Vect k)) → IsSubspace k (Over k θ S) }
    ensures multiple { let k = F.field _field.now in (θ S : List (Vect k)) (a f : Vect k) → IsPolynomial k a → InVariables k (length θ) a
        → Over k θ S f → Over k θ S (product k (substitute k θ a) f) }
    ensures within { let k = F.field _field.now in (θ S T : List (Vect k)) → ((j : ℕ) → j < length S → Over k θ T (listed k S j))
        → (f : Vect k) → Over k θ S f → Over k θ T f }
    ensures part { let k = F.field _field.now in (ws ds es : List ℕ) (θ S : List (Vect k)) → AreForms k ws ds θ → AreForms k ws es S
        → (d : ℕ) (f : Vect k) → Over k θ S f → Over k θ S (form_part k ws d f) }
{}

/// A polynomial in the variables is its own value, a mark has the polynomial of its place as value, and
/// over forms the value of a homogeneous polynomial is a form of its degree.
pub fn mark_values<F: Field>(_field: &F)
    ensures variables { let k = F.field _field.now in (n : ℕ) (θ : List (Vect k)) (u : Vect k) → IsPolynomial k u → InVariables k n u
        → mark_value k n θ u ≡ u }
    ensures mark { let k = F.field _field.now in (n : ℕ) (θ : List (Vect k)) (j : ℕ)
        → mark_value k n θ (variable_vector k (n + j)) ≡ image (vector_ring k) θ j }
    ensures degree { let k = F.field _field.now in (ws ds : List ℕ) (θ : List (Vect k)) → AreForms k ws ds θ → (d : ℕ) (u : Vect k)
        → IsGraded k (key_weight (ws ++ ds)) d u → InVariables k (length ws + length θ) u → IsForm k ws d (mark_value k (length ws) θ u) }
{}

/// Over forms, a form is a combination exactly where it lies in the span of the values of the terms of
/// its degree, of which L is a list.
pub fn combinations_in_degree<F: Field, O: TermOrder>(_space: &Space<F, O>)
    ensures span { let k = F.field _space.now.field in (θ S : List (Vect k)) (ws ds es : List ℕ) → AreForms k ws ds θ → AreForms k ws es S
        → (d : ℕ) (L : List Key)
        → ((t : Key) → length t.1.0 ≤ length θ → t.0 < length S → combination_degree ds es t ≡ d → In t L)
        → ((t : Key) → In t L → (length t.1.0 ≤ length θ) × (t.0 < length S))
        → (f : Vect k) → IsForm k ws d f → Over k θ S f → Spans k (map (term_value k θ S) L) f }
    ensures over { let k = F.field _space.now.field in (θ S : List (Vect k)) (L : List Key)
        → ((t : Key) → In t L → (length t.1.0 ≤ length θ) × (t.0 < length S))
        → (f : Vect k) → Spans k (map (term_value k θ S) L) f → Over k θ S f }
{}
