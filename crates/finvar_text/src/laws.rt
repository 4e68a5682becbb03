ghost use Rattle.std.specs.Prelude.{◌≡◌, ◌≤◌, ℕ, List, Option};
ghost use Rattle.alg_core.specs.declared.input_fault.InputFault.{InputFault};
ghost use Rattle.finvar_text.specs.Conditions.{HasFault};
ghost use Rattle.finvar_text.specs.Demos.{demo_problem, demo_text};
ghost use Rattle.finvar_text.specs.Problems.{IsProblemText};
ghost use Rattle.finvar_text.specs.Syntax.{Script, IsText};

/// A text has one tree.
pub fn trees_of_texts()
    ensures one { (text : List ℕ) (s t : Script) → IsText s text → IsText t text → s ≡ t }
{}

/// A tree has one first fault of its values, or none.
pub fn faults_of_scripts()
    ensures one { (s : Script) (f g : Option InputFault) → HasFault s f → HasFault s g → f ≡ g }
{}

/// The text of each script of `demo_script` is a script, and sets the problem of its pairs.
pub fn demos_are_scripts()
    ensures are { (k : ℕ) → 1 ≤ k → k ≤ 4 → IsProblemText (demo_text k) (demo_problem k) }
{}
