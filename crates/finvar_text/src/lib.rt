//! Scripts: which bytes are one, the tree of each, the conditions on its values, and the first fault of all others.
#![tactic(auto)]

mod demo;
mod fault;
mod laws;
mod number;
mod read;
mod scan;
mod scan_symbols;
mod scan_tokens;
mod scan_words;
mod script;
mod syntax;
mod values;
mod values_faults;
mod values_generators;
mod values_matrices;
mod values_names;

pub use demo::demo_script;
pub use fault::ScriptFault;
pub use laws::{demos_are_scripts, faults_of_scripts, trees_of_texts};
pub use read::read_script;
pub use script::Script;
