ghost use Rattle.std.specs.Prelude.{◌≡◌, ◌↔◌, ◌≤◌, ◌+◌, ◌++◌, List, IsTrue, IfOk, length, replicate};
ghost use Rattle.alg_core.specs.DpOrder.{dp_order};
ghost use Rattle.alg_core.specs.BlockOrder.{block_order};
ghost use Rattle.alg_core.specs.Keys.{key};
ghost use Rattle.alg_core.specs.Spaces.{over, place, entry, IsPlace, IsTerm};
ghost use Rattle.alg_core.specs.SpaceGrading.{degree};
ghost use Rattle.alg_core.specs.PolynomialSpaces.{plain_space, marked_space};

use crate::{
    BlockOrder, Dp, Field, Memory, ModTerm, Monomial, Term, TermOrder, is_zero, weighted_degree,
};
use std::alloc::Global;

/// The degrees of the variables, and of the positions of a module's vectors: the degree of a term is
/// the sum of its exponents, each times its weight, and the shift of its position.
#[derive(Drop)]
pub struct Grading {
    pub weights: Vec<u32>,
    pub shifts: Vec<u32>,
}

/// Where vectors live: a field, an order of terms and a grading.
#[derive(Drop)]
pub struct Space<F, O> {
    pub field: F,
    pub order: O,
    pub grading: Grading,
}

impl<F: Field> Space<F, Dp> {
    /// The polynomials in variables of degree 1, by degree reverse lexicographic order.
    pub fn of_variables(alloc: Global, field: F, variables: u32) -> Result<Space<F, Dp>, Memory>
        ensures field { IfOk result (λ s. s.field ≡ field) }
        ensures order { IfOk result (λ s. s.order.weights.items ≡ replicate variables 1) }
        ensures is { IfOk result (λ s. over F.field (λ o. dp_order o.weights.items) s ≡ plain_space (F.field field) variables) }
    {
        let n = variables as usize;
        let order = Dp {
            weights: vec![in alloc; 1; n]?,
        };
        let grading = Grading {
            weights: vec![in alloc; 1; n]?,
            shifts: vec![in alloc; 0]?,
        };
        Ok(Space {
            field,
            order,
            grading,
        })
    }
}

impl<F: Field> Space<F, BlockOrder> {
    /// The polynomials in variables of degree 1 and in marks of these degrees, by their block order.
    pub fn with_marks(
        alloc: Global,
        field: F,
        variables: u32,
        degrees: &[u32],
    ) -> Result<Space<F, BlockOrder>, Memory>
        ensures field { IfOk result (λ s. s.field ≡ field) }
        ensures variables { IfOk result (λ s. s.order.vars ≡ variables) }
        ensures marks { IfOk result (λ s. s.order.weights.items ≡ degrees.now) }
        ensures is { IfOk result (λ s. over F.field (λ o. block_order o.vars o.weights.items) s
            ≡ marked_space (F.field field) variables degrees.now) }
    {
        let mut marks = Vec::new(alloc);
        marks.extend_from_slice(degrees)?;
        let mut weights = vec![in alloc; 1; variables as usize]?;
        weights.extend_from_slice(degrees)?;
        let grading = Grading {
            weights,
            shifts: vec![in alloc; 0]?,
        };
        let order = BlockOrder {
            vars: variables,
            weights: marks,
        };
        Ok(Space {
            field,
            order,
            grading,
        })
    }
}

/// Whether a term is at a place of the space.
pub fn is_place<F: Field, O: TermOrder, M: Monomial>(space: &Space<F, O>, at: &ModTerm<M>) -> bool
    ensures is { IsTrue result ↔ IsPlace (over F.field O.order space.now) (place M.exps at.now) }
{
    let wide = at.mono.len() == space.grading.weights.len();
    let low = at.pos < space.grading.shifts.len() as u64;
    wide && low && space.order.fits(at)
}

/// Whether it can be a term of a vector of the space.
pub fn is_term<F: Field, O: TermOrder, M: Monomial>(
    space: &Space<F, O>,
    term: &Term<F::Elem, M>,
) -> bool
    ensures is { IsTrue result ↔ IsTerm (over F.field O.order space.now) (entry M.exps term.now) }
{
    let has = space.field.has(term.coef);
    has && !is_zero(&space.field, term.coef) && is_place(space, &term.at)
}

/// The degree of a term of the space.
pub fn term_degree<F: Field, O: TermOrder, M: Monomial>(
    space: &Space<F, O>,
    at: &ModTerm<M>,
) -> u128
    requires place { IsPlace (over F.field O.order space.now) (place M.exps at.now) }
    ensures is { let S = over F.field O.order space.now in result ≡ degree S (key (place M.exps at.now)) }
{
    let monomial = weighted_degree(space.grading.weights.as_slice(), 0, &at.mono);
    monomial + space.grading.shifts[at.pos as usize] as u128
}
