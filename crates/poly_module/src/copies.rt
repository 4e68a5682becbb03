ghost use Rattle.std.specs.Prelude.{◌≡◌, IfOk, take};
ghost use Rattle.alg_core.specs.Spaces.{entry, entries};

use crate::vector::Vector;
use alg_core::{Memory, ModTerm, Monomial, Term};
use std::alloc::Global;

/// A coefficient at the same position and monomial, in memory of its own.
pub(crate) fn term_at<E: Copy, M: Monomial>(
    alloc: Global,
    coef: E,
    at: &ModTerm<M>,
) -> Result<Term<E, M>, Memory>
    ensures is { IfOk result (λ t. entry M.exps t ≡ ((at.now.pos, M.exps at.now.mono), coef)) }
{
    Ok(Term {
        coef,
        at: ModTerm {
            pos: at.pos,
            mono: at.mono.copy(alloc)?,
        },
    })
}

/// The same vector, in memory of its own.
pub fn copy<E: Copy, M: Monomial>(alloc: Global, a: &Vector<E, M>) -> Result<Vector<E, M>, Memory>
    ensures same { let list = entries M.exps in IfOk result (λ v. list v ≡ list a.now) }
{
    let xs = a.terms();
    let mut terms = Vec::new(alloc);
    for i in 0..xs.len() {
        let x = &xs[i];
        terms.push(term_at(alloc, x.coef, &x.at)?)?;
    }
    Ok(Vector::of(terms))
}
