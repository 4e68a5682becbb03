//! The conditions on certificates, their check, and what a certificate gives that meets them.
#![tactic(auto)]

mod averages;
mod checking;
mod combinations;
mod ending;
mod evidence;
mod forms;
mod group;
mod images;
mod kernels;
mod laws;
mod leads;
mod lift_basis;
mod lifts;
mod marked;
mod powers;
mod primaries;
mod rank;
mod reducibility;
mod redundance;
mod secondaries;
mod terms;
mod verdict;
mod walk;
mod words;

pub use checking::check;
pub use laws::{certificates_have_properties, checks_end_once, made_certificates};
pub use verdict::{CheckRefusal, Verdict};
