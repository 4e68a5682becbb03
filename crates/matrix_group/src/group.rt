ghost use Rattle.std.specs.Prelude.{◌≡◌, length};

use lin_algebra::Matrix;
use std::marker::Model;

/// The elements of a group of matrices, seen as their list.
#[derive(Drop)]
pub struct Group<E> {
    elements: Vec<Matrix<E>>,
}

impl<E> Model for Group<E> {
    ghost use Rattle.std.specs.Prelude.{List};
    ghost use Rattle.lin_algebra.specs.declared.matrix.Matrix.{Matrix};

    ghost Value = { List (Matrix E) };

    ghost view = { λ g. g.elements.items };
}

impl<E> Group<E> {
    /// The group of these elements.
    pub(crate) fn of(elements: Vec<Matrix<E>>) -> Group<E>
        ensures is { result ≡ elements.items }
    {
        Group { elements }
    }

    /// The elements in the order in which they were found: the identity is the first.
    pub fn elements(&self) -> &[Matrix<E>]
        ensures is { result.now ≡ self.now }
    {
        self.elements.as_slice()
    }

    /// How many elements there are.
    pub fn order(&self) -> u64
        ensures is { result ≡ length self.now }
    {
        self.elements.len() as u64
    }
}
