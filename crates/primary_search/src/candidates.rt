ghost use Rattle.std.specs.Prelude.{◌≡◌, ◌<◌, ◌≤◌, ◌+◌, ◌^◌, [], ◌∷◌, false, All, length, replicate, take, drop};
ghost use Rattle.std.specs.Prelude.{IfNone, IfOk, IfSome, IsTrue};
ghost use Rattle.alg_core.specs.Spaces.{over};
ghost use Rattle.poly_module.specs.SpaceVectors.{ArePolys, IsPoly, vector_of, vectors_of};
ghost use Rattle.primary_search.specs.CandidateLists.{AreDigits, Stands, numbers_above, one_then_zeros, to_come};
ghost use Rattle.primary_search.specs.Candidates.{combined, number_of};

use alg_core::{Field, Memory, Space, TermOrder};
use poly_module::{Poly, add, copy, scale};
use std::alloc::Global;

/// The candidates of one degree that are still to come.
#[derive(Drop)]
pub(crate) struct CandidateList {
    /// How many members of the echelon basis have come.
    members: usize,
    /// The digits of the last combination, the lowest first; before the first one they are those of 1.
    digits: Vec<u32>,
    /// The place of the last digit that is not 0.
    last: usize,
}

impl CandidateList {
    /// All candidates of a degree that has so many members.
    pub(crate) fn of_members(alloc: Global, count: usize) -> Result<CandidateList, Memory>
        ensures members { IfOk result (λ c. c.members ≡ 0) }
        ensures digits { IfOk result (λ c. c.digits.items ≡ one_then_zeros count) }
        ensures last { IfOk result (λ c. c.last ≡ 0) }
    {
        let mut digits = vec![in alloc; 0; count]?;
        if count > 0 {
            digits[0] = 1;
        }
        Ok(CandidateList {
            members: 0,
            digits,
            last: 0,
        })
    }

    /// The next candidate, where the basis has these members.
    pub(crate) fn next<F: Field, O: TermOrder>(
        &mut self,
        alloc: Global,
        space: &Space<F, O>,
        basis: &[Poly<F::Elem>],
    ) -> Result<Option<Poly<F::Elem>>, Memory>
        requires polynomials { ArePolys (over F.field O.order space.now) (λ m. m) basis.now }
        requires stands { Stands (F.field space.now.field).size (length basis.now) self.old }
        ensures stands { IfOk result (λ o. IfSome o (λ _. Stands (F.field space.now.field).size (length basis.now) self.new)) }
        ensures polynomial { IfOk result (λ o. IfSome o (IsPoly (over F.field O.order space.now) (λ m. m))) }
        ensures none { let S = over F.field O.order space.now in
            IfOk result (λ o. IfNone o (to_come S.field (vectors_of S (λ m. m) basis.now) self.old ≡ [])) }
        ensures some { let S = over F.field O.order space.now in let of = vectors_of S (λ m. m) in IfOk result (λ o. IfSome o (λ p.
            to_come S.field (of basis.now) self.old ≡ vector_of S (λ m. m) p ∷ to_come S.field (of basis.now) self.new)) }
    {
        if self.members < basis.len() {
            let member = copy(alloc, &basis[self.members])?;
            self.members += 1;
            return Ok(Some(member));
        }
        match advance(self.digits.as_mut_slice(), self.last, space.field.size()) {
            None => Ok(None),
            Some(last) => {
                self.last = last;
                let next = combination(alloc, space, basis, self.digits.as_slice())?;
                Ok(Some(next))
            }
        }
    }
}

/// Goes from the digits of one combination to those of the next, and answers the place of their last
/// digit that is not 0. While the digits below that one can count on, they do; then it moves up by one
/// place, and the lowest digit is 1. None where there is no place left.
fn advance(digits: &mut [u32], last: usize, size: u32) -> Option<usize>
    requires size { 2 ≤ size }
    requires digits { AreDigits size digits.old last }
    ensures length { length digits.new ≡ length digits.old }
    ensures digits { IfSome result (AreDigits size digits.new) }
    ensures none { IfNone result (numbers_above size (length digits.old) (number_of size digits.old) ≡ []) }
    ensures some { IfSome result (λ _. let above = numbers_above size (length digits.old) in
        above (number_of size digits.old) ≡ number_of size digits.new ∷ above (number_of size digits.new)) }
{
    if increment(digits, last, size) {
        return Some(last);
    }
    let next = last + 1;
    if next >= digits.len() {
        return None;
    }
    digits[last] = 0;
    digits[next] = 1;
    digits[0] = 1;
    Some(next)
}

/// The combination of the members of a basis whose coefficients have these numbers.
pub(crate) fn combination<F: Field, O: TermOrder>(
    alloc: Global,
    space: &Space<F, O>,
    basis: &[Poly<F::Elem>],
    digits: &[u32],
) -> Result<Poly<F::Elem>, Memory>
    requires polynomials { ArePolys (over F.field O.order space.now) (λ m. m) basis.now }
    requires each { length digits.now ≡ length basis.now }
    requires digits { All (λ d. d < (F.field space.now.field).size) digits.now }
    ensures polynomial { IfOk result (IsPoly (over F.field O.order space.now) (λ m. m)) }
    ensures is { let S = over F.field O.order space.now in IfOk result (λ c. vector_of S (λ m. m) c
        ≡ combined S.field (vectors_of S (λ m. m) basis.now) digits.now) }
{
    let mut sum = Poly::zero(alloc);
    for i in 0..basis.len() {
        let member = &basis[i];
        let factor = space.field.of_number(digits[i]);
        let multiple = scale(alloc, space, factor, member)?;
        sum = add(alloc, space, &sum, &multiple)?;
    }
    Ok(sum)
}

/// Adds 1 to the number that the first `count` digits to the base `size` stand for, the lowest first.
/// False where it was the greatest with so many digits: they are 0 then.
pub(crate) fn increment(digits: &mut [u32], count: usize, size: u32) -> bool
    requires within { count ≤ length digits.old }
    requires digits { All (λ d. d < size) digits.old }
    ensures length { length digits.new ≡ length digits.old }
    ensures digits { All (λ d. d < size) digits.new }
    ensures rest { drop count digits.new ≡ drop count digits.old }
    ensures more { IsTrue result
        → number_of size (take count digits.new) ≡ number_of size (take count digits.old) + 1 }
    ensures over { result ≡ false → (take count digits.new ≡ replicate count 0)
        × (number_of size (take count digits.old) + 1 ≡ size ^ count) }
{
    for i in 0..count {
        if digits[i] + 1 < size {
            digits[i] += 1;
            return true;
        }
        digits[i] = 0;
    }
    false
}
