ghost use Rattle.std.specs.Prelude.{◌≡◌, []};

use alg_core::{Mono, Term};
use std::alloc::Global;
use std::marker::Model;

/// A vector over a space, seen as the list of its terms.
#[derive(Drop)]
pub struct Vector<E, M> {
    terms: Vec<Term<E, M>>,
}

/// A polynomial: a vector with position 0 alone.
pub type Poly<E> = Vector<E, Mono>;

/// A combination of secondary invariants: position j - 1 stands for the j-th of them.
#[derive(Drop)]
pub struct Comb<E> {
    pub vector: Vector<E, Mono>,
}

impl<E, M> Model for Vector<E, M> {
    ghost use Rattle.std.specs.Prelude.{List};
    ghost use Rattle.alg_core.specs.declared.term.Term.{Term};

    ghost Value = { List (Term E M) };

    ghost view = { λ v. v.terms.items };
}

impl<E, M> Vector<E, M> {
    /// The vector 0.
    pub fn zero(alloc: Global) -> Vector<E, M>
        ensures is { result ≡ [] }
    {
        Vector {
            terms: Vec::new(alloc),
        }
    }

    /// The vector of these terms, which are to fall strictly by the order of its space and to have no
    /// coefficient 0. Takes no memory: nothing is merged.
    pub fn of(terms: Vec<Term<E, M>>) -> Vector<E, M>
        ensures is { result ≡ terms.items }
    {
        Vector { terms }
    }

    /// The terms, the greatest first.
    pub fn terms(&self) -> &[Term<E, M>]
        ensures is { result.now ≡ self.now }
    {
        self.terms.as_slice()
    }
}
