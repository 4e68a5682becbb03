ghost use Rattle.std.specs.Prelude.{◌↔◌, ℕ, List};
ghost use Rattle.alg_core.specs.Keys.{Key};
ghost use Rattle.alg_core.specs.Lists.{In};
ghost use Rattle.alg_core.specs.MonomialParts.{variable_part};
ghost use Rattle.alg_core.specs.PolynomialSpaces.{plain_space, marked_space};
ghost use Rattle.alg_core.specs.SpaceOrder.{key_order};
ghost use Rattle.alg_core.specs.Spaces.{SpaceOver};
ghost use Rattle.alg_core.specs.Vectors.{Vect};
ghost use Rattle.poly_module.specs.Marks.{IsRelation};
ghost use Rattle.poly_module.specs.Modules.{LeadBy};
ghost use Rattle.poly_module.specs.Parts.{IsPolynomial};
ghost use Rattle.finite_certificate.specs.MarkSpaces.{IsMarkSpace, ArePositiveForms};
ghost use Rattle.finite_certificate.specs.StandardMonomials.{IsStandard, CoordinatesAreUnique, MarksAreIndependent};
ghost use Rattle.groebner_hom.specs.Colons.{InColon, IsPair};
ghost use Rattle.groebner_hom.specs.IdealBases.{NoIdealAbove};
ghost use Rattle.groebner_hom.specs.Lifts.{AreRegularForms};

use alg_core::Field;

/// The elements of the colon module of a polynomial f and polynomials are the pairs (p, h) for which
/// p - h · f lies in the ideal of these.
pub fn colon_modules<F: Field>(_field: &F)
    ensures pairs { let k = F.field _field.now in (θ : List (Vect k)) (f : Vect k)
        → ((g : Vect k) → In g θ → IsPolynomial k g) → IsPolynomial k f → (v : Vect k) → InColon k θ f v ↔ IsPair k θ f v }
{}

/// Forms of positive degrees that are a regular sequence: a polynomial has at most one list of coordinates
/// by the standard monomials, no polynomial in the marks alone but 0 has the value 0, and the lead of a
/// relation between the forms and their marks, by the block order, has no standard part in the variables.
/// Since each polynomial has coordinates (`coordinates_exist` of finite_certificate), the polynomials are a
/// free module over the algebra of the forms, with the standard monomials as a basis.
/// (Derksen and Kemper, Computational Invariant Theory, section 2.5, on the Cohen-Macaulay property.)
pub fn regular_forms<F: Field>(_field: &F)
    ensures unique { let k = F.field _field.now in (n : ℕ) (ds : List ℕ) (θ : List (Vect k)) → AreRegularForms k n ds θ
        → CoordinatesAreUnique k n θ }
    ensures independent { let k = F.field _field.now in (n : ℕ) (ds : List ℕ) (θ : List (Vect k)) → AreRegularForms k n ds θ
        → MarksAreIndependent k n θ }
    ensures leads { let k = F.field _field.now in (n : ℕ) (ds : List ℕ) (θ : List (Vect k)) → AreRegularForms k n ds θ
        → (u : Vect k) (t : Key) → IsRelation k n θ u → LeadBy k (key_order (marked_space k n ds)) u t
        → ¬ IsStandard k n θ (variable_part n t.1) }
{}

/// The ideal of positive forms has no element above a cap over a space with marks where it has none in the
/// variables alone, by the degree reverse lexicographic order: the forms have no marks.
/// (Derksen and Kemper, Computational Invariant Theory, sections 1.1 and 1.2.)
pub fn ideals_with_marks<F: Field>(_field: &F)
    ensures within { (S : SpaceOver F.Elem) (n : ℕ) (ds : List ℕ) (θ : List (Vect S.field)) → IsMarkSpace S n ds
        → ArePositiveForms S.field n ds θ → (cap : ℕ) → NoIdealAbove (plain_space S.field n) θ cap → NoIdealAbove S θ cap }
{}
