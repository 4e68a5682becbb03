ghost use Rattle.std.specs.Prelude.{◌≡◌, []};

use poly_module::Poly;
use std::alloc::Global;

/// What a walk took, and the reduced basis of its ideal.
#[derive(Drop)]
pub(crate) struct Taken<E> {
    pub(crate) members: Vec<Poly<E>>,
    pub(crate) basis: Vec<Poly<E>>,
}

impl<E> Taken<E> {
    /// Nothing is taken.
    pub(crate) fn nothing(alloc: Global) -> Taken<E>
        ensures members { result.members.items ≡ [] }
        ensures basis { result.basis.items ≡ [] }
    {
        Taken {
            members: Vec::new(alloc),
            basis: Vec::new(alloc),
        }
    }
}
