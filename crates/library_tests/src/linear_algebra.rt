//! Forms, systems, products and inverses of matrices over some prime fields.

use alg_core::Field;
use lin_algebra::{echelon, identity, inverse, kernel, multiply, solve};
use std::alloc::Global;
use std::process::Abort;
use std::test::Fail;
use test_inputs::{field, matrix, values};

/// The rows are e + f, 2e + f and e + 2f for e = (1, 2, 0, 1) and f = (0, 0, 1, 1).
const RANK_TWO: [i16; 12] = [1, 2, 1, 2, 2, 4, 1, 3, 1, 2, 2, 3];

/// What is multiplied by the unknowns, and what solves it.
#[derive(Clone, Copy)]
struct System {
    rows: u64,
    cols: u64,
    cells: &'static [i16],
    right: &'static [i16],
    solution: Option<&'static [i16]>,
}

const SYSTEMS: [System; 5] = [
    // The free columns 1 and 3 get zeros.
    System {
        rows: 3,
        cols: 4,
        cells: &RANK_TWO,
        right: &[2, 3, 3],
        solution: Some(&[1, 0, 1, 0]),
    },
    System {
        rows: 3,
        cols: 4,
        cells: &RANK_TWO,
        right: &[0, 1, 0],
        solution: None,
    },
    System {
        rows: 3,
        cols: 0,
        cells: &[],
        right: &[0, 0, 0],
        solution: Some(&[]),
    },
    System {
        rows: 3,
        cols: 0,
        cells: &[],
        right: &[0, 0, 1],
        solution: None,
    },
    System {
        rows: 0,
        cols: 3,
        cells: &[],
        right: &[],
        solution: Some(&[0, 0, 0]),
    },
];

fn examine_forms<F: Field<Elem = u16>>(
    rt: &impl Abort,
    alloc: Global,
    field: &F,
) -> Result<(), Fail> {
    let a = matrix(alloc, field, 3, 4, &RANK_TWO)?;
    let form = echelon(alloc, field, &a)?;
    let rows = matrix(alloc, field, 2, 4, &[1, 2, 0, 1, 0, 0, 1, 1])?;
    assert_eq!(rt; form.matrix, rows);
    assert_eq!(rt; form.pivots.as_slice(), [0, 2].as_slice());
    Ok(())
}

fn examine_kernel<F: Field<Elem = u16>>(
    rt: &impl Abort,
    alloc: Global,
    field: &F,
) -> Result<(), Fail> {
    let a = matrix(alloc, field, 3, 4, &RANK_TWO)?;
    let wanted = matrix(alloc, field, 2, 4, &[1, 0, 1, -1, 0, 1, 2, -2])?;
    assert_eq!(rt; kernel(alloc, field, &a)?, wanted);
    Ok(())
}

fn examine_system<F: Field<Elem = u16>>(
    rt: &impl Abort,
    alloc: Global,
    field: &F,
    system: &System,
) -> Result<(), Fail> {
    let a = matrix(alloc, field, system.rows, system.cols, system.cells)?;
    let right = values(alloc, field, system.right)?;
    assert_eq!(rt; right.len() as u64, system.rows);
    let found = solve(alloc, field, &a, &right)?;
    let wanted = match system.solution {
        Some(numbers) => Some(values(alloc, field, numbers)?),
        None => None,
    };
    assert_eq!(rt; found, wanted);
    Ok(())
}

fn examine_product<F: Field<Elem = u16>>(
    rt: &impl Abort,
    alloc: Global,
    field: &F,
) -> Result<(), Fail> {
    let a = matrix(alloc, field, 2, 3, &[1, 2, 0, 0, 1, 1])?;
    let b = matrix(alloc, field, 3, 2, &[1, 0, 2, 1, 1, 1])?;
    let wanted = matrix(alloc, field, 2, 2, &[5, 2, 3, 2])?;
    assert_eq!(rt; multiply(alloc, field, &a, &b)?, wanted);
    Ok(())
}

fn examine_inverses<F: Field<Elem = u16>>(
    rt: &impl Abort,
    alloc: Global,
    field: &F,
) -> Result<(), Fail> {
    let square = matrix(alloc, field, 2, 2, &[1, 2, 1, 3])?;
    let wanted = matrix(alloc, field, 2, 2, &[3, -2, -1, 1])?;
    assert_eq!(rt; inverse(alloc, field, &square)?, Some(wanted));
    let singular = matrix(alloc, field, 2, 2, &[1, 2, 2, 4])?;
    assert!(rt; inverse(alloc, field, &singular)?.is_none());
    Ok(())
}

#[test]
fn computes_over_prime_fields(rt: HostRuntime) -> Result<(), Fail> {
    let alloc = rt.alloc();
    for p in [2, 3, 32003] {
        let field = field(p)?;
        examine_forms(&rt, alloc, &field)?;
        examine_kernel(&rt, alloc, &field)?;
        examine_product(&rt, alloc, &field)?;
        examine_inverses(&rt, alloc, &field)?;
        for system in &SYSTEMS {
            examine_system(&rt, alloc, &field, system)?;
        }
    }
    Ok(())
}

fn examine_no_rows<F: Field<Elem = u16>>(
    rt: &impl Abort,
    alloc: Global,
    field: &F,
) -> Result<(), Fail> {
    let no_rows = matrix(alloc, field, 0, 3, &[])?;
    let unit = matrix(alloc, field, 3, 3, &[1, 0, 0, 0, 1, 0, 0, 0, 1])?;
    assert_eq!(rt; identity(alloc, field, 3)?, unit);
    assert_eq!(rt; echelon(alloc, field, &no_rows)?.matrix, no_rows);
    assert_eq!(rt; kernel(alloc, field, &no_rows)?, unit);
    Ok(())
}

fn examine_no_columns<F: Field<Elem = u16>>(
    rt: &impl Abort,
    alloc: Global,
    field: &F,
) -> Result<(), Fail> {
    let no_columns = matrix(alloc, field, 3, 0, &[])?;
    let nothing = matrix(alloc, field, 0, 0, &[])?;
    assert_eq!(rt; echelon(alloc, field, &no_columns)?.matrix, nothing);
    assert_eq!(rt; kernel(alloc, field, &no_columns)?, nothing);
    assert!(rt; inverse(alloc, field, &nothing)?.is_some());
    Ok(())
}

#[test]
fn takes_empty_matrices(rt: HostRuntime) -> Result<(), Fail> {
    let field = field(3)?;
    examine_no_rows(&rt, rt.alloc(), &field)?;
    examine_no_columns(&rt, rt.alloc(), &field)?;
    Ok(())
}

// Three rows of no columns by no rows of three columns: sums of nothing.
#[test]
fn multiplies_empty_matrices(rt: HostRuntime) -> Result<(), Fail> {
    let alloc = rt.alloc();
    let field = field(3)?;
    let no_rows = matrix(alloc, &field, 0, 3, &[])?;
    let no_columns = matrix(alloc, &field, 3, 0, &[])?;
    let wanted = matrix(alloc, &field, 3, 3, &[0; 9])?;
    assert_eq!(rt; multiply(alloc, &field, &no_columns, &no_rows)?, wanted);
    Ok(())
}
