//! Whether a text is one of the grammar, whatever its values are.

ghost use Rattle.std.specs.Prelude.{◌≡◌, ◌≢◌, ◌↔◌, ◌∷◌, [], List, IfOk, true, false};
ghost use Rattle.poly_text.specs.Syntax.{Factor, HasPolynomialText, HasMonomialText, monomial_term};
ghost use Rattle.poly_text.specs.Trees.{terms_of};
ghost use Rattle.poly_text.specs.declared.fault.TextFault.TheVariants as faults;

use crate::fault::TextFault;
use crate::scan::syntax_tree;
use crate::syntax::TermText;
use alg_core::Memory;
use std::alloc::Global;

/// Whether the text is that of a polynomial or of a combination, by the grammar alone: names, indices, the order of
/// factors and terms and the sizes of numbers may be any.
pub fn is_polynomial_text(alloc: Global, text: &[u8]) -> Result<bool, Memory>
    ensures is { IfOk result (λ b. (b ≡ true) ↔ HasPolynomialText text.now) }
{
    match syntax_tree(alloc, text) {
        Ok(_) => Ok(true),
        Err(fault) => is_no_text(fault),
    }
}

/// Whether the text is that of a monomial, by the grammar alone.
pub fn is_monomial_text(alloc: Global, text: &[u8]) -> Result<bool, Memory>
    ensures is { IfOk result (λ b. (b ≡ true) ↔ HasMonomialText text.now) }
{
    match syntax_tree(alloc, text) {
        Ok(terms) => Ok(is_monomial(terms.as_slice())),
        Err(fault) => is_no_text(fault),
    }
}

/// Whether the tree is one product of factors, without a sign.
fn is_monomial(terms: &[TermText]) -> bool
    ensures is { (result ≡ true) ↔ ((fs : List Factor) × (terms_of terms.now ≡ monomial_term fs ∷ [])) }
{
    if terms.len() != 1 {
        return false;
    }
    let term = &terms[0];
    !term.is_negative && term.coefficient == 1
}

/// The answer that a fault tells: it is no text, where memory was not refused.
fn is_no_text(fault: TextFault) -> Result<bool, Memory>
    ensures is { IfOk result (λ b. (b ≡ false) × (fault ≢ faults.Memory)) }
{
    match fault {
        TextFault::Memory => Err(Memory),
        TextFault::Syntax { .. } => Ok(false),
        TextFault::Value { .. } => Ok(false),
    }
}
