ghost use Rattle.std.specs.Prelude.{◌≡◌, ◌<◌, ◌+◌, ◌*◌, ◌↔◌, ◌++◌, ℕ, List, All, IfOk, OnOk, length, slice_index_or};
ghost use Rattle.std.specs.Global.{Vec};
ghost use Rattle.alg_core.specs.Fields.{Has, scalar, scalars};
ghost use Rattle.alg_core.specs.KeyLists.{Falls};
ghost use Rattle.alg_core.specs.KeyOrders.{OrderOn};
ghost use Rattle.alg_core.specs.Keys.{Key};
ghost use Rattle.alg_core.specs.Lists.{In};
ghost use Rattle.alg_core.specs.SpaceOrder.{key_order};
ghost use Rattle.alg_core.specs.Spaces.{over};
ghost use Rattle.alg_core.specs.Vectors.{Vect, coef_at};
ghost use Rattle.poly_module.specs.Parts.{Supp};
ghost use Rattle.lin_algebra.specs.Matrices.{IsMatrix};
ghost use Rattle.lin_algebra.specs.Vectors.{dot, unit, vector, IsRow};
ghost use Rattle.lin_algebra.specs.declared.matrix.Matrix.{Matrix};
ghost use Rattle.matrix_group.specs.Actions.{act_by, Invariant, IsSquare};
ghost use Rattle.invariant_space.specs.Equations.{IsMonomialList, coordinates, Solves, AreEquations};
ghost use Rattle.invariant_space.specs.Images.{AreImages, AllImages};

use alg_core::{Field, Memory, Space, TermOrder};
use lin_algebra::Matrix;
use std::alloc::Global;

/// The coordinate s of row l, less 1 where s is l.
fn difference<F: Field>(field: &F, image: &[Vec<F::Elem>], l: usize, s: usize) -> F::Elem
    requires rows { All (λ r. IsRow (F.field field.now) (length image.now) r.items) image.now }
    requires row { l < length image.now }
    requires column { s < length image.now }
    ensures has { Has (F.field field.now) result }
    ensures is { let k = F.field field.now in (r : Vec F.Elem) → r ≡ slice_index_or image.now l r
        → (scalars k).◌+◌ (scalar k result) (unit (scalars k) s l) ≡ vector k r.items s }
{
    let row = &image[l];
    let entry = row[s];
    if l == s {
        field.add(entry, field.neg(field.one()))
    } else {
        entry
    }
}

/// The coefficients of the equation at monomial s: the coefficient of the image of a polynomial there
/// is its own.
fn equation<F: Field>(
    alloc: Global,
    field: &F,
    image: &[Vec<F::Elem>],
    s: usize,
) -> Result<Vec<F::Elem>, Memory>
    requires rows { All (λ r. IsRow (F.field field.now) (length image.now) r.items) image.now }
    requires column { s < length image.now }
    ensures row { IfOk result (λ r. IsRow (F.field field.now) (length image.now) r.items) }
    ensures equation { let k = F.field field.now in IfOk result (λ r.
        (o : OrderOn Key) (m : Matrix F.Elem) (ts : List Key) (t : Key) (f : Vect k)
        → Falls o ts → AreImages k m ts image.now → slice_index_or ts s t ≡ t → Supp k (λ u. In u ts) f
        → (scalars k).◌+◌ (dot (scalars k) (length image.now) (vector k r.items) (coordinates k ts f)) (coef_at k f t)
        ≡ coef_at k (act_by k m f) t) }
{
    let mut row = Vec::new(alloc);
    for l in 0..image.len() {
        row.push(difference(field, image, l, s))?;
    }
    Ok(row)
}

/// Adds a row to a matrix.
fn push_row<E: Copy>(system: &mut Matrix<E>, row: &[E]) -> Result<(), Memory>
    ensures rows { OnOk result (system.new.rows ≡ system.old.rows + 1) }
    ensures cols { OnOk result (system.new.cols ≡ system.old.cols) }
    ensures cells { OnOk result (system.new.cells.items ≡ system.old.cells.items ++ row.now) }
{
    system.rows = system.rows.checked_add(1).ok_or(Memory)?;
    system.cells.extend_from_slice(row)?;
    Ok(())
}

/// Adds the equations of one matrix, by the images of the monomials under it.
fn add_equations<F: Field, O: TermOrder>(
    alloc: Global,
    space: &Space<F, O>,
    image: &[Vec<F::Elem>],
    system: &mut Matrix<F::Elem>,
) -> Result<(), Memory>
    requires rows { All (λ r. IsRow (F.field space.now.field) (length image.now) r.items) image.now }
    requires matrix { IsMatrix (F.field space.now.field) system.old }
    requires cols { system.old.cols ≡ length image.now }
    ensures matrix { OnOk result (IsMatrix (F.field space.now.field) system.new) }
    ensures cols { OnOk result (system.new.cols ≡ length image.now) }
    ensures fixed { let S = over F.field O.order space.now in let k = S.field in OnOk result (
        (d : ℕ) (ts : List Key) (m : Matrix F.Elem) (f : Vect k)
        → IsMonomialList (key_order S) (length S.weights) d ts → IsSquare k (length S.weights) m
        → AreImages k m ts image.now → Supp k (λ t. In t ts) f
        → Solves k system.new (coordinates k ts f) ↔ (Solves k system.old (coordinates k ts f) × (act_by k m f ≡ f))) }
{
    for s in 0..image.len() {
        let row = equation(alloc, &space.field, image, s)?;
        push_row(system, &row)?;
    }
    Ok(())
}

/// The equations of all matrices, by the images of so many monomials.
pub(crate) fn equations<F: Field, O: TermOrder>(
    alloc: Global,
    space: &Space<F, O>,
    gens: &[Matrix<F::Elem>],
    images: &[Vec<Vec<F::Elem>>],
    count: usize,
) -> Result<Matrix<F::Elem>, Memory>
    requires square { All (IsSquare (F.field space.now.field) (length space.now.grading.weights.items)) gens.now }
    requires images { let S = over F.field O.order space.now in (d : ℕ) × (ts : List Key)
        × IsMonomialList (key_order S) (length S.weights) d ts × (length ts ≡ count) × AllImages S.field gens.now ts images.now }
    ensures equations { let S = over F.field O.order space.now in IfOk result (λ a. (d : ℕ) (ts : List Key)
        → IsMonomialList (key_order S) (length S.weights) d ts → length ts ≡ count → AllImages S.field gens.now ts images.now
        → AreEquations S.field ts (Invariant S.field gens.now) a) }
{
    let mut system = Matrix {
        rows: 0,
        cols: count as u64,
        cells: Vec::new(alloc),
    };
    for i in 0..gens.len() {
        add_equations(alloc, space, &images[i], &mut system)?;
    }
    Ok(system)
}
