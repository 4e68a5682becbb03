//! The script of the group of two elements that exchanges the variables of each of some pairs.

ghost use Rattle.std.specs.Prelude.{◌≡◌, ◌<◌, ◌≤◌, ◌+◌, IfOk, map};
ghost use Rattle.finvar_text.specs.Demos.{are_paired, cell, demo_text, exchange, matrix_line, ring_line, separated};

use alg_core::Memory;
use std::alloc::Global;

/// The names of the variables that a script may have.
const LETTERS: &[u8; 8] = b"abcdefgh";

/// The bytes with a comma between each two.
#[tactic(auto, unfolding(crate::specs::Demos::separated))]
fn separated(alloc: Global, bytes: &[u8]) -> Result<Vec<u8>, Memory>
    ensures is { IfOk result (λ t. t.items ≡ separated bytes.now) }
{
    let mut text = Vec::new(alloc);
    let Some((first, rest)) = bytes.split_first() else {
        return Ok(text);
    };
    text.push(*first)?;
    for byte in rest {
        text.push(b',')?;
        text.push(*byte)?;
    }
    Ok(text)
}

/// The line of the ring over GF(2) in the first n letters.
fn ring_line(alloc: Global, n: u8) -> Result<Vec<u8>, Memory>
    requires few { n ≤ 8 }
    ensures is { IfOk result (λ t. t.items ≡ ring_line n) }
{
    let names = separated(alloc, &LETTERS[..usize::from(n)])?;
    let mut line = Vec::from_slice(alloc, b"ring R=2,(")?;
    line.extend_from_slice(&names)?;
    line.extend_from_slice(b"),dp;\n")?;
    Ok(line)
}

/// Whether the places are the two of a pair: 0 and 1, or 2 and 3, and so on.
fn are_paired(i: usize, j: usize) -> bool
    ensures is { result ≡ are_paired i j }
{
    i / 2 == j / 2 && i != j
}

/// The digit of a cell of the n by n matrix that exchanges the variables of each pair.
fn digit(n: usize, place: usize) -> u8
    requires some { 0 < n }
    ensures is { result ≡ 48 + cell n place }
{
    if are_paired(place / n, place % n) {
        b'1'
    } else {
        b'0'
    }
}

/// The digits of its cells, row after row.
fn digits(alloc: Global, n: usize) -> Result<Vec<u8>, Memory>
    requires some { 0 < n }
    requires few { n ≤ 8 }
    ensures are { IfOk result (λ ds. ds.items ≡ map (λ c. 48 + c) (exchange n)) }
{
    let mut digits = Vec::new(alloc);
    for place in 0..n * n {
        digits.push(digit(n, place))?;
    }
    Ok(digits)
}

/// The line of that matrix.
#[tactic(auto, unfolding(crate::specs::Demos::matrix_line))]
fn matrix_line(alloc: Global, n: u8) -> Result<Vec<u8>, Memory>
    requires some { 0 < n }
    requires few { n ≤ 8 }
    ensures is { IfOk result (λ t. t.items ≡ matrix_line n) }
{
    let digits = digits(alloc, usize::from(n))?;
    let cells = separated(alloc, &digits)?;
    let size = b'0' + n;
    let mut line = Vec::from_slice(alloc, b"matrix A[")?;
    line.push(size)?;
    line.extend_from_slice(b"][")?;
    line.push(size)?;
    line.extend_from_slice(b"]=")?;
    line.extend_from_slice(&cells)?;
    line.extend_from_slice(b";\n")?;
    Ok(line)
}

/// The script of k pairs of variables over GF(2), the first 2k letters, and of the one matrix that exchanges the
/// variables of each pair: so the characteristic divides the order of the group. `demos_are_scripts` says that it
/// is a script, and of which problem.
#[tactic(auto, unfolding(crate::specs::Demos::demo_text, crate::specs::Demos::call_line))]
pub fn demo_script(alloc: Global, k: u32) -> Result<Vec<u8>, Memory>
    requires some { 1 ≤ k }
    requires few { k ≤ 4 }
    ensures text { IfOk result (λ t. t.items ≡ demo_text k) }
{
    let n = 2 * k as u8;
    let mut text = ring_line(alloc, n)?;
    let matrix = matrix_line(alloc, n)?;
    text.extend_from_slice(&matrix)?;
    text.extend_from_slice(b"matrix P,S,IS=invariant_ring(A);\n")?;
    Ok(text)
}
