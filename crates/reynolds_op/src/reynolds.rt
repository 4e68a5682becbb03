ghost use Rattle.std.specs.Prelude.{◌≡◌, ◌↔◌, IfOk, IfSome, IsNone, length};
ghost use Rattle.std.specs.Int.{◌∣◌};
ghost use Rattle.alg_core.specs.Fields.{Has};
ghost use Rattle.alg_core.specs.Spaces.{over};
ghost use Rattle.poly_module.specs.SpaceVectors.{vector_of, IsVectorOf, IsPoly, IsPolyOf, HasPolynomials};
ghost use Rattle.poly_module.specs.Sizes.{IsLow};
ghost use Rattle.matrix_group.specs.Groups.{size, cells_of};
ghost use Rattle.alg_core.specs.Fields.{ones};
ghost use Rattle.reynolds_op.specs.Averages.{sum_over, reynolds, IsMatrixGroup, IsAveraging, ActTogether, AveragesOn};

use alg_core::{Field, Memory, Space, TermOrder};
use lin_algebra::Matrix;
use matrix_group::{Group, act};
use poly_module::{Poly, Vector, add, scale};
use std::alloc::Global;
use std::marker::Model;

/// The Reynolds operator R(f) = (1/N)·Σ f∘g over the N elements g of a finite group of n by n
/// matrices, where the characteristic of the field does not divide N.
/// (Derksen and Kemper, Computational Invariant Theory, section 2.2.)
#[derive(Drop)]
pub struct Reynolds<'g, E> {
    group: &'g Group<E>,
    factor: E,
}

impl<'g, E> Model for Reynolds<'g, E> {
    ghost use Rattle.reynolds_op.specs.Averages.{Averaging};

    ghost Value = { Averaging E };

    ghost view = { λ r. record { elements = r.group.now; factor = r.factor } };
}

/// The sum of as many ones.
fn sum_of_ones<F: Field>(field: &F, count: u64) -> F::Elem
    ensures is { result ≡ ones (F.field field.now) count }
    ensures has { Has (F.field field.now) result }
{
    let mut sum = field.zero();
    for _ in 0..count {
        sum = field.add(field.one(), sum);
    }
    sum
}

/// The sum of the images of f under the matrices, each made and added up in turn.
fn sum_of_images<F: Field, O: TermOrder>(
    alloc: Global,
    space: &Space<F, O>,
    f: &Poly<F::Elem>,
    elements: &[Matrix<F::Elem>],
) -> Result<Poly<F::Elem>, Memory>
    requires polynomials { HasPolynomials (over F.field O.order space.now) }
    requires polynomial { IsPoly (over F.field O.order space.now) (λ a. a) f.now }
    requires matrices { ActTogether (over F.field O.order space.now) elements.now }
    requires low { IsLow 4294967295 (λ a. a) f.now }
    ensures sum { let S = over F.field O.order space.now in let n = size elements.now in
        IfOk result (IsVectorOf S (λ a. a) (sum_over S.field n (cells_of elements.now) (vector_of S (λ a. a) f.now))) }
{
    let mut sum = Vector::zero(alloc);
    for i in 0..elements.len() {
        let image = act(alloc, space, f, &elements[i])?;
        sum = add(alloc, space, &sum, &image)?;
    }
    Ok(sum)
}

impl<'g, E: Copy> Reynolds<'g, E> {
    /// The Reynolds operator of the group of n by n matrices; None exactly where the characteristic of
    /// the field divides the order of the group. Takes no memory.
    pub fn of<F: Field<Elem = E>>(field: &F, group: &'g Group<E>) -> Option<Reynolds<'g, E>>
        requires group { IsMatrixGroup (F.field field.now) (size group.now) group.now }
        ensures none { IsNone result ↔ ((F.field field.now).characteristic ∣ length group.now) }
        ensures some { IfSome result (λ R. IsAveraging (F.field field.now) (size group.now) R) }
        ensures elements { IfSome result (λ R. R.elements ≡ group.now) }
    {
        let ones = sum_of_ones(field, group.order());
        let factor = field.inv(ones)?;
        Some(Reynolds { group, factor })
    }

    /// The average R(f) of the images of f under the elements, in the space of f, which has at least n
    /// variables. The images are made and added up one after another.
    pub fn apply<F: Field<Elem = E>, O: TermOrder>(
        &self,
        alloc: Global,
        space: &Space<F, O>,
        f: &Poly<E>,
    ) -> Result<Poly<E>, Memory>
        requires averaging { AveragesOn (over F.field O.order space.now) self.now }
        requires polynomials { HasPolynomials (over F.field O.order space.now) }
        requires polynomial { IsPoly (over F.field O.order space.now) (λ a. a) f.now }
        requires low { IsLow 4294967295 (λ a. a) f.now }
        ensures average { let S = over F.field O.order space.now in let n = size self.now.elements in
            IfOk result (IsPolyOf S (λ a. a) (reynolds S.field n self.now (vector_of S (λ a. a) f.now))) }
    {
        let sum = sum_of_images(alloc, space, f, self.group.elements())?;
        let average = scale(alloc, space, self.factor, &sum)?;
        Ok(average)
    }
}
