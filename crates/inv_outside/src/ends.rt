ghost use Rattle.std.specs.Prelude.{◌≡◌, ◌<◌, ◌≤◌, ℕ, List, Option, [], length, take, IfOk, IfSome, OnErr, IsErr, Ok};
ghost use Rattle.inv_outside.specs.Outside.{Rose, Gave, Took};

/// The outside failed.
#[derive(Clone, Copy, Debug, PartialEq, Eq)]
pub struct Failed;

/// Where bytes come from.
pub trait Source {
    /// The bytes still to come, where they are told.
    ghost left: { Self → Option (List ℕ) };

    /// How often it failed. The count never falls.
    ghost faults: { Self → ℕ };

    /// Fills the front of a buffer, and answers how many bytes it put there. Zero is the end.
    fn read(&mut self, buf: &mut [u8]) -> Result<usize, Failed>
        requires room { 0 < length buf.old }
        ensures within { IfOk result (λ k. k ≤ length buf.old) }
        ensures gave { IfOk result (λ k. Gave (left self.old) (take k buf.new) (left self.new)) }
        ensures end { result ≡ Ok 0 → IfSome (left self.new) (λ rest. rest ≡ []) }
        ensures kept { OnErr result (left self.new ≡ left self.old) }
        ensures cause { IsErr result → Rose (faults self.old) (faults self.new) }
        ensures later { faults self.old ≤ faults self.new };
}

/// Where bytes go.
pub trait Sink {
    /// The bytes that it took, where they are told.
    ghost taken: { Self → Option (List ℕ) };

    /// How often it failed. The count never falls.
    ghost faults: { Self → ℕ };

    /// Takes the front of a piece, and answers how many bytes that was: at least one.
    fn write(&mut self, piece: &[u8]) -> Result<usize, Failed>
        requires some { 0 < length piece.now }
        ensures progress { IfOk result (λ k. 0 < k) }
        ensures within { IfOk result (λ k. k ≤ length piece.now) }
        ensures took { IfOk result (λ k. Took (taken self.old) (take k piece.now) (taken self.new)) }
        ensures kept { OnErr result (taken self.new ≡ taken self.old) }
        ensures cause { IsErr result → Rose (faults self.old) (faults self.new) }
        ensures later { faults self.old ≤ faults self.new };
}
