ghost use Rattle.std.specs.Prelude.{◌≡◌, ◌≤◌, ◌<◌, ◌+◌, ◌^◌, ℕ, Err, IfOk, OnOk, All, length};
ghost use Rattle.indexmap.specs.IndexSet.{insert_key};
ghost use Rattle.matrix_group.specs.Insertions.{are_same};
ghost use Rattle.matrix_group.specs.Actions.{IsSquare};
ghost use Rattle.matrix_group.specs.Groups.{size, cells_of, IsNonsingular, AreElements, IsOverOrder, IsWalk, IsGroup};
ghost use Rattle.matrix_group.specs.declared.fault.GroupFault.TheVariants.{GroupBound};

use crate::fault::GroupFault;
use crate::group::Group;
use alg_core::{Field, Memory};
use indexmap::IndexSet;
use lin_algebra::{Matrix, identity, multiply};
use std::alloc::Global;
use std::hash::Hash;

/// Puts a matrix last, if it is none of those that are there.
fn put<E: Copy + Eq + Hash>(
    found: &mut IndexSet<Matrix<E>>,
    new: Matrix<E>,
    max: u64,
) -> Result<(), GroupFault>
    requires max { max + 1 < 2 ^ 64 }
    ensures found { OnOk result (found.new.keys ≡ insert_key (are_same E.PartialEq.eq) found.old.keys new) }
    ensures within { OnOk result (length found.new.keys ≤ max) }
    ensures bound { (counted : ℕ) → result ≡ Err (GroupBound counted)
        → (counted ≡ max + 1) × (max < length (insert_key (are_same E.PartialEq.eq) found.old.keys new)) }
{
    found.insert(new)?;
    if found.len() as u64 > max {
        return Err(GroupFault::GroupBound { counted: max + 1 });
    }
    Ok(())
}

/// The group of the matrices that were found, in their order.
fn group_of<E: Copy + Eq + Hash>(
    alloc: Global,
    found: IndexSet<Matrix<E>>,
) -> Result<Group<E>, Memory>
    ensures is { IfOk result (λ g. g ≡ found.keys) }
{
    let elements = found.into_iter().collect(alloc)?;
    Ok(Group::of(elements))
}

/// The group that n by n matrices generate: all of their finite products, each once. The identity is
/// the first element; then each element in turn is multiplied from the right by each generator, in the
/// order of the generators, and what is new goes last.
///
/// GroupBound comes where there are more than `max` elements; it counts `max` + 1, as many as were
/// found then. Each element is kept once and multiplied once by each generator.
/// (The orbit of the identity under multiplication from the right.)
pub fn enumerate<F: Field>(
    alloc: Global,
    field: &F,
    gens: &[Matrix<F::Elem>],
    max: u64,
) -> Result<Group<F::Elem>, GroupFault>
    requires some { 0 < length gens.now }
    requires square { All (IsSquare (F.field field.now) (size gens.now)) gens.now }
    requires invertible { All (IsNonsingular (F.field field.now)) gens.now }
    requires max { max + 1 < 2 ^ 64 }
    ensures square { IfOk result (All (IsSquare (F.field field.now) (size gens.now))) }
    ensures size { IfOk result (λ g. size g ≡ size gens.now) }
    ensures elements { IfOk result (λ g. AreElements (F.field field.now) (size gens.now) (cells_of gens.now) (cells_of g)) }
    ensures walk { IfOk result (λ g. IsWalk (F.field field.now) (size gens.now) (cells_of gens.now) (cells_of g)) }
    ensures group { IfOk result (λ g. IsGroup (F.field field.now) (size gens.now) (cells_of g)) }
    ensures within { IfOk result (λ g. length g ≤ max) }
    ensures bound { (counted : ℕ) → result ≡ Err (GroupBound counted)
        → (counted ≡ max + 1) × IsOverOrder (F.field field.now) (size gens.now) (cells_of gens.now) max }
{
    let one = identity(alloc, field, gens[0].rows)?;
    let mut found = IndexSet::new(alloc);
    put(&mut found, one, max)?;
    let mut place = 0;
    while place < found.len() {
        for i in 0..gens.len() {
            let generator = &gens[i];
            let product = multiply(alloc, field, &found[place], generator)?;
            put(&mut found, product, max)?;
        }
        place += 1;
    }
    let group = group_of(alloc, found)?;
    Ok(group)
}
