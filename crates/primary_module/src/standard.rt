ghost use Rattle.std.specs.Prelude.{◌≡◌, ◌≤◌, ◌<◌, ◌+◌, ◌++◌, ◌∷◌, [], ℕ, true, Err, IfOk, OnOk, All, length, take, replicate};
ghost use Rattle.poly_module.specs.GreatestExponents.{total};
ghost use Rattle.poly_module.specs.SpaceVectors.{AreVectors, vectors_of};
ghost use Rattle.finite_certificate.specs.MarkSpaces.{mark_space};
ghost use Rattle.finite_certificate.specs.StandardMonomials.{AreStandardMonomials, IsOverRank};
ghost use Rattle.primary_module.specs.PrimaryModules.{rank_limit, AreForModule};
ghost use Rattle.primary_module.specs.UndividedMonomials.{lead_exponents, is_undivided, AreUndivided, HasUndivided};
ghost use Rattle.primary_module.specs.UndividedMonomials.{is_zero_from, variable_exponents, multiple_of, multiples_of, multiples_below, IsSmall};

use crate::fault::RankFault;
use alg_core::{BlockOrder, Field, Memory, Mono, Monomial, Space};
use poly_module::{Poly, lead};
use std::alloc::Global;

/// The monomial without the variables after the first n.
fn first_variables(alloc: Global, n: usize, mono: &Mono) -> Result<Mono, Memory>
    requires within { n ≤ length mono.now }
    ensures is { IfOk result (λ m. m ≡ take n mono.now) }
{
    let mut exponents = Vec::new(alloc);
    for i in 0..n {
        exponents.push(mono.exp(i))?;
    }
    let part = Mono::from_exps(alloc, exponents.as_slice())?;
    Ok(part)
}

/// The monomials of the leads, without the marks.
fn lead_monomials<F: Field>(
    alloc: Global,
    space: &Space<F, BlockOrder>,
    lifts: &[Poly<F::Elem>],
) -> Result<Vec<Mono>, Memory>
    requires vectors { AreVectors (mark_space F.field space.now) (λ m. m) lifts.now }
    requires variables { space.now.order.vars ≤ length space.now.grading.weights.items }
    ensures are { IfOk result (λ ms. ms.items ≡ lead_exponents space.now.order.vars lifts.now) }
{
    let n = space.order.vars as usize;
    let mut leads = Vec::new(alloc);
    for i in 0..lifts.len() {
        if let Some(term) = lead(space, &lifts[i]) {
            leads.push(first_variables(alloc, n, &term.at.mono)?)?;
        }
    }
    Ok(leads)
}

/// Whether no lead divides the monomial.
fn is_undivided(leads: &[Mono], mono: &Mono) -> bool
    requires wide { All (λ l. length l ≡ length mono.now) leads.now }
    ensures is { result ≡ is_undivided leads.now mono.now }
{
    for i in 0..leads.len() {
        if leads[i].divides(mono) {
            return false;
        }
    }
    true
}

/// Whether the monomial has no variable after variable j, from 0.
fn is_up_to(j: usize, mono: &Mono) -> bool
    requires within { j < length mono.now }
    ensures is { result ≡ is_zero_from (j + 1) mono.now }
{
    let n = mono.len();
    for i in j + 1..n {
        if mono.exp(i) > 0 {
            return false;
        }
    }
    true
}

/// Variable j, from 0, of n variables.
fn variable(alloc: Global, n: usize, j: usize) -> Result<Mono, Memory>
    requires within { j < n }
    ensures is { IfOk result (λ m. m ≡ variable_exponents n j) }
{
    let mut exponents = vec![in alloc; 0; n]?;
    exponents[j] = 1;
    let variable = Mono::from_exps(alloc, exponents.as_slice())?;
    Ok(variable)
}

/// Adds the multiple of the monomial by variable j at the end of the list, where the monomial has no
/// later variable and no lead divides the multiple: so each monomial is the multiple of one alone.
fn add_multiple(
    alloc: Global,
    leads: &[Mono],
    variable: &Mono,
    j: usize,
    mono: &Mono,
    list: &mut Vec<Mono>,
) -> Result<(), Memory>
    requires wide { All (λ l. length l ≡ length mono.now) leads.now }
    requires within { j < length mono.now }
    requires variable { variable.now ≡ variable_exponents (length mono.now) j }
    requires low { total mono.now ≤ rank_limit }
    ensures added { OnOk result (list.new.items ≡ list.old.items ++ multiple_of leads.now (length mono.now) j mono.now) }
{
    if !is_up_to(j, mono) {
        return Ok(());
    }
    let multiple = variable.product(alloc, mono)?;
    if is_undivided(leads, &multiple) {
        list.push(multiple)?;
    }
    Ok(())
}

/// Adds the multiples of the monomials by variable j at the end of the list.
fn add_multiples(
    alloc: Global,
    leads: &[Mono],
    n: usize,
    j: usize,
    monomials: &[Mono],
    list: &mut Vec<Mono>,
) -> Result<(), Memory>
    requires wide { All (λ l. length l ≡ n) leads.now }
    requires within { j < n }
    requires small { All (IsSmall n) monomials.now }
    ensures added { OnOk result (list.new.items ≡ list.old.items ++ multiples_of leads.now n j monomials.now) }
{
    let variable = variable(alloc, n, j)?;
    for i in 0..monomials.len() {
        add_multiple(alloc, leads, &variable, j, &monomials[i], list)?;
    }
    Ok(())
}

/// The monomials of the next degree that no lead divides, where these are those of a degree, rising.
fn next_degree(
    alloc: Global,
    leads: &[Mono],
    n: usize,
    monomials: &[Mono],
) -> Result<Vec<Mono>, Memory>
    requires wide { All (λ l. length l ≡ n) leads.now }
    requires small { All (IsSmall n) monomials.now }
    ensures are { IfOk result (λ ms. ms.items ≡ multiples_below leads.now n n monomials.now) }
{
    let mut list = Vec::new(alloc);
    for i in 0..n {
        add_multiples(alloc, leads, n, n - 1 - i, monomials, &mut list)?;
    }
    Ok(list)
}

/// The monomial 1, alone in a list.
fn one(alloc: Global, n: usize) -> Result<Vec<Mono>, Memory>
    ensures is { IfOk result (λ ms. ms.items ≡ replicate n 0 ∷ []) }
{
    let zeros = vec![in alloc; 0; n]?;
    let mut list = Vec::new(alloc);
    list.push(Mono::from_exps(alloc, zeros.as_slice())?)?;
    Ok(list)
}

/// The monomials in n variables that no lead divides, rising, found degree by degree. RankBound comes
/// exactly where there are more than `max_rank`.
fn undivided_monomials(
    alloc: Global,
    leads: &[Mono],
    n: usize,
    max_rank: u32,
) -> Result<Vec<Mono>, RankFault>
    requires wide { All (λ l. length l ≡ n) leads.now }
    requires one { is_undivided leads.now (replicate n 0) ≡ true }
    requires rank { max_rank ≤ rank_limit }
    ensures are { IfOk result (λ ms. AreUndivided leads.now n ms.items) }
    ensures within { IfOk result (λ ms. length ms.items ≤ max_rank) }
    ensures low { IfOk result (λ ms. All (λ a. total a < length ms.items) ms.items) }
    ensures bound { (counted : ℕ) → result ≡ Err (RankFault.RankBound counted)
        → (counted ≡ max_rank + 1) × HasUndivided leads.now n counted }
{
    let mut monomials = Vec::new(alloc);
    let mut found = one(alloc, n)?;
    'degrees: while !found.is_empty() {
        if found.len() > max_rank as usize - monomials.len() {
            let counted = max_rank as u64 + 1;
            return Err(RankFault::RankBound { counted });
        }
        let next = next_degree(alloc, leads, n, found.as_slice())?;
        join(&mut monomials, found)?;
        found = next;
    }
    Ok(monomials)
}

/// Moves the monomials of the second list to the end of the first.
fn join(list: &mut Vec<Mono>, mut more: Vec<Mono>) -> Result<(), Memory>
    ensures joined { OnOk result (list.new.items ≡ list.old.items ++ more.items) }
{
    list.append(&mut more)?;
    Ok(())
}

/// The monomials in the variables that no lead of the lifts divides, rising. RankBound comes exactly
/// where there are more than `max_rank`.
pub fn standard_monomials<F: Field>(
    alloc: Global,
    space: &Space<F, BlockOrder>,
    theta: &[Poly<F::Elem>],
    lifts: &[Poly<F::Elem>],
    max_rank: u32,
) -> Result<Vec<Mono>, RankFault>
    requires given { AreForModule (mark_space F.field space.now) space.now.order.vars space.now.order.weights.items theta.now lifts.now }
    requires rank { max_rank ≤ rank_limit }
    ensures monomials { let S = mark_space F.field space.now in
        IfOk result (λ ms. AreStandardMonomials S.field space.now.order.vars (vectors_of S (λ m. m) theta.now) ms.items) }
    ensures within { IfOk result (λ ms. length ms.items ≤ max_rank) }
    ensures low { IfOk result (λ ms. All (λ a. total a < length ms.items) ms.items) }
    ensures bound { let S = mark_space F.field space.now in (counted : ℕ) → result ≡ Err (RankFault.RankBound counted)
        → (counted ≡ max_rank + 1) × IsOverRank S.field space.now.order.vars (vectors_of S (λ m. m) theta.now) max_rank }
{
    let _ = theta;
    let leads = lead_monomials(alloc, space, lifts)?;
    let n = space.order.vars as usize;
    let monomials = undivided_monomials(alloc, leads.as_slice(), n, max_rank)?;
    Ok(monomials)
}
