//! Lists of answers of which each is there.

ghost use Rattle.std.specs.Prelude.{◌≡◌, Some, IfOk, IsTrue, All, is_some, map};

use alg_core::Memory;
use std::alloc::Global;

/// The values of a list in which none is missing, in their order.
pub(crate) fn present<T: Drop>(alloc: Global, list: Vec<Option<T>>) -> Result<Vec<T>, Memory>
    requires present { All (λ o. IsTrue (is_some o)) list.items }
    ensures are { IfOk result (λ ts. map (λ t. Some t) ts.items ≡ list.items) }
{
    let mut values = Vec::new(alloc);
    for answer in list {
        match answer {
            Some(value) => values.push(value)?,
            None => unreachable!(),
        }
    }
    Ok(values)
}
