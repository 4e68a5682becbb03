//! A run of the program over ends in memory: an example of use.

ghost use Rattle.std.specs.Prelude.{◌≡◌, ℕ, [], map, string_bytes};
ghost use Rattle.finvar_text.specs.Problems.{Problem, IsProblemText};
ghost use Rattle.invring_app.specs.Commands.Bases.{IsBasisText};
ghost use Rattle.invring_app.specs.Words.{IsRequest};
ghost use Rattle.invring_app.specs.declared.commands.Command.TheVariants.{Basis};
ghost use Rattle.invring_app.specs.declared.words.Request.{Request};

use inv_outside::{CleanSource, MemSink};
use invring_app::{Status, run};
use std::alloc::Global;
#[cfg(test)]
use std::test::Fail;

/// The run over a script that is told whole and never fails to be read. Where `basis` of a degree
/// is done, the empty sink took the text of the basis of the script's problem, and nothing else.
pub fn run_in_memory(
    alloc: Global,
    words: &[String],
    script: Vec<u8>,
    output: &mut MemSink,
    errors: &mut MemSink,
) -> Status
    requires empty { output.old.taken ≡ [] }
    ensures basis { (r : Request) (d : ℕ) → IsRequest (map string_bytes words.now) r → r.command ≡ Basis d → result ≡ Status.Done
        → (q : Problem) × IsProblemText script.items q × IsBasisText q d output.new.taken }
{
    let mut source = CleanSource::new(script);
    run(alloc, words, &mut source, output, errors)
}

const SWAP: &[u8] = b"ring R=2,(x,y),dp; matrix A[2][2]=0,1,1,0;\n";

// The two lines that the README shows.
#[test]
fn prints_the_basis_of_the_swap(rt: HostRuntime) -> Result<(), Fail> {
    let alloc = rt.alloc();
    let words = Vec::from_array(
        alloc,
        [
            String::from_str(alloc, "basis")?,
            String::from_str(alloc, "2")?,
        ],
    )?;
    let script = Vec::from_slice(alloc, SWAP)?;
    let mut output = MemSink::new(alloc, 16, Vec::new(alloc), 100)?;
    let mut errors = MemSink::new(alloc, 16, Vec::new(alloc), 100)?;
    let status = run_in_memory(alloc, &words, script, &mut output, &mut errors);
    assert_eq!(rt; status.code(), 0);
    assert_eq!(rt; output.taken(), b"x^2+y^2\nx*y\n".as_slice());
    Ok(())
}
