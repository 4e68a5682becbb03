ghost use Rattle.std.specs.Prelude.{◌≡◌, ℕ, List};
ghost use Rattle.alg_core.specs.LimitRanges.{AreLimits};
ghost use Rattle.alg_core.specs.declared.limits.Limits.{Limits};
ghost use Rattle.cert_check.specs.declared.verdict.Verdict.TheVariants.{Accepted};
ghost use Rattle.finvar_text.specs.Problems.{Problem, IsProblemText};
ghost use Rattle.invring_app.specs.declared.reading.Kind.{Kind};
ghost use Rattle.invring_app.specs.declared.words.Request.{Request};
ghost use Rattle.invring_app.specs.Answers.{Ends};
ghost use Rattle.invring_app.specs.CheckFaults.{IsVerdict};
ghost use Rattle.invring_app.specs.Commands.Rings.{IsRingAnswer};
ghost use Rattle.invring_app.specs.Endings.{AreAlike, Ending};
ghost use Rattle.invring_app.specs.Inputs.{Input, IsRefused, ReadsAs, Refusal};
ghost use Rattle.invring_app.specs.OwnCertificates.{HasShortLists, IsAcceptedText};
ghost use Rattle.invring_app.specs.Words.{IsRequest};

/// Words are at most one command.
pub fn words_ask_once()
    ensures one { (words : List (List ℕ)) (r s : Request) → IsRequest words r → IsRequest words s → r ≡ s }
{}

/// Bytes are read as one input or refused in one way, and not both.
pub fn bytes_are_read_once()
    ensures input { (kind : Kind) (bytes : List ℕ) (i j : Input) → ReadsAs kind bytes i → ReadsAs kind bytes j → i ≡ j }
    ensures refusal { (kind : Kind) (bytes : List ℕ) (x y : Refusal) → IsRefused kind bytes x → IsRefused kind bytes y → x ≡ y }
    ensures apart { (kind : Kind) (bytes : List ℕ) (i : Input) (x : Refusal) → ReadsAs kind bytes i → ¬ IsRefused kind bytes x }
{}

/// A request ends in one way at what was read: it has one text, one bound, and not both.
pub fn requests_end_once()
    ensures one { (r : Request) (i : Input) (e f : Ending) → Ends r i e → Ends r i f → AreAlike e f }
{}

/// Under the limits with which `ring` made a certificate, `check` accepts it: it meets no bound at it, and each condition holds.
pub fn own_certificates_accepted()
    ensures accepted { (l : Limits) (q : Problem) (bytes text : List ℕ) → IsProblemText bytes q → IsRingAnswer l q text → IsAcceptedText l text }
{}

/// What `ring` writes under limits in their ranges is the text of a certificate that `check` reads, and under the same limits it
/// accepts it; where no list is longer than the index of a mark can tell.
pub fn own_certificates_read()
    ensures read { (l : Limits) (q : Problem) (bytes text : List ℕ) → AreLimits l → IsProblemText bytes q → (a : IsRingAnswer l q text) → HasShortLists a.certificate → IsVerdict l text Accepted }
{}
