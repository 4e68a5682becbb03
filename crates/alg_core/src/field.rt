ghost use Rattle.std.specs.Prelude.{◌≡◌, ◌<◌, ◌↔◌, IsNone, IfSome};
ghost use Rattle.alg_core.specs.Fields.{FieldOn, Has, Exact};

use std::hash::Hash;

/// A finite field on those values of `Elem` that `has` accepts. No call takes memory.
pub trait Field: Copy {
    type Elem: Copy + Eq + Hash;

    /// The operations that the calls compute, with the laws of a finite field.
    ghost field: { Self → FieldOn Self.Elem };

    /// Whether the field has the value.
    fn has(&self, a: Self::Elem) -> bool
        ensures is { result ≡ (field self.now).has a };

    fn zero(&self) -> Self::Elem
        ensures is { result ≡ (field self.now).zero }
        ensures has { Has (field self.now) result };

    fn one(&self) -> Self::Elem
        ensures is { result ≡ (field self.now).one }
        ensures has { Has (field self.now) result };

    fn add(&self, a: Self::Elem, b: Self::Elem) -> Self::Elem
        requires left { Has (field self.now) a }
        requires right { Has (field self.now) b }
        ensures is { result ≡ (field self.now).add a b }
        ensures has { Has (field self.now) result };

    /// The opposite.
    fn neg(&self, a: Self::Elem) -> Self::Elem
        requires has { Has (field self.now) a }
        ensures is { result ≡ (field self.now).neg a }
        ensures has { Has (field self.now) result };

    fn mul(&self, a: Self::Elem, b: Self::Elem) -> Self::Elem
        requires left { Has (field self.now) a }
        requires right { Has (field self.now) b }
        ensures is { result ≡ (field self.now).mul a b }
        ensures has { Has (field self.now) result };

    /// The inverse; None at zero alone.
    fn inv(&self, a: Self::Elem) -> Option<Self::Elem>
        requires has { Has (field self.now) a }
        ensures none { IsNone result ↔ (a ≡ (field self.now).zero) }
        ensures some { IfSome result (λ b. Has (field self.now) b × ((field self.now).mul a b ≡ (field self.now).one)) };

    /// How many values the field has.
    fn size(&self) -> u32
        ensures is { result ≡ (field self.now).size };

    /// The least positive number of ones whose sum is zero.
    fn characteristic(&self) -> u32
        ensures is { result ≡ (field self.now).characteristic };

    /// The place of a value in the numbering of the field, from 0: zero is 0, one is 1.
    fn number(&self, a: Self::Elem) -> u32
        requires has { Has (field self.now) a }
        ensures is { result ≡ (field self.now).number a };

    /// The value with this number.
    fn of_number(&self, k: u32) -> Self::Elem
        requires below { k < (field self.now).size }
        ensures is { result ≡ (field self.now).of_number k }
        ensures has { Has (field self.now) result };

    /// `==` tells the values apart.
    ghost exact: { Exact Self.Elem.PartialEq.eq };
}
