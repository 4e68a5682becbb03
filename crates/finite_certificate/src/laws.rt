ghost use Rattle.std.specs.Prelude.{◌↔◌, ◌⊎◌, ◌≤◌, ◌++◌, ℕ, List, length, replicate};
ghost use Rattle.alg_core.specs.Keys.{KeyDivides};
ghost use Rattle.alg_core.specs.Monomials.{Mon, monomials};
ghost use Rattle.alg_core.specs.PolynomialSpaces.{plain_space, marked_space};
ghost use Rattle.alg_core.specs.SpaceOrder.{key_order};
ghost use Rattle.alg_core.specs.Vectors.{Vect};
ghost use Rattle.poly_module.specs.Parts.{InVariables};
ghost use Rattle.poly_module.specs.Forms.{IsForm};
ghost use Rattle.poly_module.specs.Modules.{LeadBy};
ghost use Rattle.poly_module.specs.Marks.{IsRelation};
ghost use Rattle.finite_certificate.specs.Ideals.{InIdeal};
ghost use Rattle.finite_certificate.specs.MarkSpaces.{ArePositiveForms};
ghost use Rattle.finite_certificate.specs.StandardMonomials.{IsStandard, IsLeadMultiple, LeadsDivide, IsCoordinates, CoordinatesExist};
ghost use Rattle.finite_certificate.specs.Finiteness.{FiniteBy, Spanned};
ghost use Rattle.finite_certificate.specs.Spreading.{exponents_of};

use alg_core::Field;

/// Where each variable has a power that is the value of a polynomial with a mark in each term, the
/// polynomials are a finite module over the algebra of the positive forms theta: each is the value of one
/// in which the exponents of the variables are below those of the powers. The forms of the powers need not
/// be homogeneous.
/// (Derksen and Kemper, Computational Invariant Theory, section 2.4.)
pub fn finite_modules<F: Field>(_field: &F)
    ensures spanned { let k = F.field _field.now in (n : ℕ) (ds : List ℕ) (θ : List (Vect k)) → ArePositiveForms k n ds θ
        → (ps : List (ℕ × Vect k)) → FiniteBy k n θ ps → Spanned k n θ (exponents_of k ps) }
{}

/// A monomial in the variables is the lead of an element of the ideal of the positive forms theta exactly
/// where it is that of a relation between theta and the marks, by the block order.
pub fn relation_leads<F: Field>(_field: &F)
    ensures lifted { let k = F.field _field.now in (n : ℕ) (ds : List ℕ) (θ : List (Vect k)) → ArePositiveForms k n ds θ
        → (m : Mon) → length m.0 ≤ n → (f : Vect k) → InIdeal k θ f → LeadBy k (key_order (plain_space k n)) f (0, m)
        → (u : Vect k) × IsRelation k n θ u × LeadBy k (key_order (marked_space k n ds)) u (0, m) }
    ensures dropped { let k = F.field _field.now in (n : ℕ) (ds : List ℕ) (θ : List (Vect k)) → ArePositiveForms k n ds θ
        → (m : Mon) → length m.0 ≤ n → (u : Vect k) → IsRelation k n θ u → LeadBy k (key_order (marked_space k n ds)) u (0, m)
        → (f : Vect k) × InIdeal k θ f × LeadBy k (key_order (plain_space k n)) f (0, m) }
{}

/// A monomial is standard exactly where no lead of a Gröbner basis of the ideal divides it, and where no
/// lead of one of the relations does; divisors of standard monomials are standard, and so is 1. Over
/// positive forms a monomial in the variables is standard or, to be found by elimination in its degree,
/// the lead of an element of the ideal.
pub fn standard_monomials<F: Field>(_field: &F)
    ensures by_basis { let k = F.field _field.now in (n : ℕ) (θ gs : List (Vect k)) → let o = key_order (plain_space k n) in
        LeadsDivide k o (InIdeal k θ) gs → (m : Mon) → IsStandard k n θ m ↔ (¬ IsLeadMultiple k o gs (0, m)) }
    ensures by_lifts { let k = F.field _field.now in (n : ℕ) (ds : List ℕ) (θ gs : List (Vect k)) → let o = key_order (marked_space k n ds) in
        ArePositiveForms k n ds θ → LeadsDivide k o (IsRelation k n θ) gs
        → (m : Mon) → length m.0 ≤ n → IsStandard k n θ m ↔ (¬ IsLeadMultiple k o gs (0, m)) }
    ensures divisor { let k = F.field _field.now in (n : ℕ) (θ : List (Vect k)) (a b : Mon)
        → KeyDivides (0, a) (0, b) → IsStandard k n θ b → IsStandard k n θ a }
    ensures one { let k = F.field _field.now in (n : ℕ) (ds : List ℕ) (θ : List (Vect k)) → ArePositiveForms k n ds θ
        → IsStandard k n θ monomials.one }
    ensures decided { let k = F.field _field.now in (n : ℕ) (ds : List ℕ) (θ : List (Vect k)) → ArePositiveForms k n ds θ
        → (m : Mon) → length m.0 ≤ n
        → IsStandard k n θ m ⊎ ((f : Vect k) × InIdeal k θ f × LeadBy k (key_order (plain_space k n)) f (0, m)) }
{}

/// Over positive forms each polynomial in the variables has coordinates by the standard monomials, and
/// a form has homogeneous ones of its degree.
pub fn coordinates_exist<F: Field>(_field: &F)
    ensures any { let k = F.field _field.now in (n : ℕ) (ds : List ℕ) (θ : List (Vect k)) → ArePositiveForms k n ds θ → CoordinatesExist k n θ }
    ensures homogeneous { let k = F.field _field.now in (n : ℕ) (ds : List ℕ) (θ : List (Vect k)) → ArePositiveForms k n ds θ
        → (d : ℕ) (f : Vect k) → IsForm k (replicate n 1) d f → InVariables k n f
        → (u : Vect k) × IsCoordinates k n θ f u × IsForm k (replicate n 1 ++ ds) d u }
{}
