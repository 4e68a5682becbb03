ghost use Rattle.std.specs.Prelude.{◌≡◌, ◌≢◌, ◌↔◌, ◌≤◌, ℕ, Option, length, take, map, string_bytes};
ghost use Rattle.alg_core.specs.LimitRanges.{AreLimits};
ghost use Rattle.inv_outside.specs.Outside.{Rose, Took};
ghost use Rattle.invring_app.specs.Commands.{IsNumberOf, reads};
ghost use Rattle.invring_app.specs.declared.commands.Command.{Command as Asked};
ghost use Rattle.invring_app.specs.declared.words.Request.{Request};
ghost use Rattle.invring_app.specs.Headline.{AcceptsCertificate, WritesCertificate};
ghost use Rattle.invring_app.specs.declared.reading.Kind.TheVariants as kinds;
ghost use Rattle.invring_app.specs.Inputs.{IsReading};
ghost use Rattle.invring_app.specs.Outcomes.{status_after, Reading, Writing, Completes, Writes, IsCommandOf, error_line};
ghost use Rattle.invring_app.specs.Words.{IsRequest};

use crate::commands::{answer_to, input_of, outcome};
use crate::error_line::{tell, write_error};
use crate::reading::read_input;
use crate::status::Status;
use crate::words::{Request as Wanted, read_words};
use inv_outside::{Sink, Source, write_all};
use std::alloc::Global;

/// Does what the words ask for: reads the input to its end, and writes the answer.
///
/// Of several faults the first one is answered, in the order words, reading, length, syntax,
/// values, bounds, writing; `Memory` may come wherever the words are a command. All of the output is
/// made before its first byte is written. At every status but `Done` one line goes to `err`, and none
/// where `check` rejects a certificate, since that line is its output; a fault of `err` leaves the status
/// as it is.
pub fn run<S: Source, O: Sink, E: Sink>(
    alloc: Global,
    words: &[String],
    src: &mut S,
    out: &mut O,
    err: &mut E,
) -> Status
    // The words.
    ensures usage { result ≡ Status.Usage ↔ ((r : Request) → ¬ IsRequest (map string_bytes words.now) r) }
    ensures idle { ((r : Request) → IsRequest (map string_bytes words.now) r → ¬ IsReading (reads r.command)) → src.new ≡ src.old }

    // What was read, and at what ending of that the run came to its end.
    ensures reading { (r : Request) → IsRequest (map string_bytes words.now) r
        → Reading r result (S.left src.old) (S.left src.new) (S.faults src.old) (S.faults src.new) }
    ensures writing { (r : Request) → IsRequest (map string_bytes words.now) r
        → Writing r result (S.left src.old) (S.left src.new) (O.taken out.old) (O.taken out.new) (O.faults out.old) (O.faults out.new) }
    ensures complete { (r : Request) → IsRequest (map string_bytes words.now) r
        → Completes r result (S.left src.old) (S.faults src.old) (S.faults src.new) (O.faults out.old) (O.faults out.new) }
    ensures silent { ¬ Writes result → out.new ≡ out.old }

    // What `ring` wrote: the certificate of the script that the source gave.
    ensures certified { (r : Request) → IsRequest (map string_bytes words.now) r → r.command ≡ Asked.Ring → result ≡ Status.Done
        → WritesCertificate r.limits.tries (S.left src.old) (S.left src.new) (O.taken out.old) (O.taken out.new) }

    // Where `check` or `show` is done, the source gave a certificate that holds.
    ensures accepted { (r : Request) → IsRequest (map string_bytes words.now) r → reads r.command ≡ kinds.Certificate
        → result ≡ Status.Done → AcceptsCertificate r.limits (S.left src.old) (S.left src.new) }

    // The error line: its front, all of it where `err` had no fault, and nothing where the run is done.
    ensures line { (c : Option Asked) → IsCommandOf (map string_bytes words.now) c
        → (k : ℕ) × (k ≤ length (error_line c result)) × Took (E.taken err.old) (take k (error_line c result)) (E.taken err.new) }
    ensures whole { (c : Option Asked) → IsCommandOf (map string_bytes words.now) c
        → ¬ Rose (E.faults err.old) (E.faults err.new) → Took (E.taken err.old) (error_line c result) (E.taken err.new) }
    ensures quiet { result ≡ Status.Done → err.new ≡ err.old }
{
    let Some(request) = read_words(words) else {
        let _ = write_error(err, &Status::Usage);
        return Status::Usage;
    };
    let status = Status::after(work(alloc, request, src, out));
    let _ = tell(err, request.command, &status);
    status
}

/// The same for a request, without the error line. An error is the status of a run that is not done.
fn work<S: Source, O: Sink>(
    alloc: Global,
    request: Wanted,
    src: &mut S,
    out: &mut O,
) -> Result<(), Status>
    requires number { IsNumberOf request.command }
    requires limits { AreLimits request.limits }
    ensures asked { status_after result ≢ Status.Usage }
    ensures idle { ¬ IsReading (reads request.command) → src.new ≡ src.old }
    ensures reading { Reading request (status_after result) (S.left src.old) (S.left src.new) (S.faults src.old) (S.faults src.new) }
    ensures writing { Writing request (status_after result) (S.left src.old) (S.left src.new) (O.taken out.old) (O.taken out.new)
        (O.faults out.old) (O.faults out.new) }
    ensures complete { Completes request (status_after result) (S.left src.old) (S.faults src.old) (S.faults src.new) (O.faults out.old)
        (O.faults out.new) }
    ensures silent { ¬ Writes (status_after result) → out.new ≡ out.old }
{
    let bytes = read_input(alloc, src, input_of(request.command))?;
    let answer = answer_to(alloc, request, &bytes)?;
    write_all(out, &answer.text)?;
    outcome(answer.verdict)
}
