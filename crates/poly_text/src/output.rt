ghost use Rattle.std.specs.Option.{option_map};
ghost use Rattle.poly_text.specs.Outputs.{IsPut};

use alg_core::Memory;
use std::alloc::Global;
use std::marker::Model;

/// Where a text is put, piece by piece: it keeps the bytes, or only counts them, and then it takes no
/// memory. Where memory is refused it forgets what it kept, and counts on.
#[derive(Drop)]
pub struct Output {
    kept: Option<Vec<u8>>,
    length: u64,
}

impl Model for Output {
    ghost use Rattle.std.specs.Option.{option_map};
    ghost use Rattle.poly_text.specs.Outputs.{OutputState};

    ghost Value = { OutputState };

    ghost view = { λ o. record { kept = option_map (λ v. v.items) o.kept; length = o.length } };
}

impl Output {
    ghost use Rattle.std.specs.Prelude.{◌≡◌, ℕ, List, [], ◌++◌, IfOk};
    ghost use Rattle.poly_text.specs.Outputs.{Says};

    /// One that keeps the bytes.
    pub fn keeping(alloc: Global) -> Output
        ensures nothing { Says result [] }
    {
        Output {
            kept: Some(Vec::new(alloc)),
            length: 0,
        }
    }

    /// One that counts the bytes.
    pub fn counting() -> Output
        ensures nothing { Says result [] }
    {
        Output {
            kept: None,
            length: 0,
        }
    }

    /// Puts these bytes after the others.
    pub fn put(&mut self, piece: &[u8])
        ensures is { (w : List ℕ) → Says self.old w → Says self.new (w ++ piece.now) }
    {
        self.length = self.length.saturating_add(piece.len() as u64);
        self.kept = with_piece(self.kept.take(), piece);
    }

    /// How many bytes were put; 18446744073709551615 where there were more. Takes no memory.
    pub fn length(&self) -> u64
        ensures is { result ≡ self.now.length }
    {
        self.length
    }

    /// The bytes that were put. Memory comes where they were counted alone, or memory was refused.
    pub fn finish(self) -> Result<Vec<u8>, Memory>
        ensures is { (w : List ℕ) → Says self w → IfOk result (λ v. v.items ≡ w) }
    {
        self.kept.ok_or(Memory)
    }
}

/// The bytes with the piece after them, where they are kept and memory is not refused.
fn with_piece(kept: Option<Vec<u8>>, piece: &[u8]) -> Option<Vec<u8>>
    ensures is { IsPut (option_map (λ v. v.items) kept) piece.now (option_map (λ v. v.items) result) }
{
    let mut bytes = kept?;
    bytes.extend_from_slice(piece).ok()?;
    Some(bytes)
}
