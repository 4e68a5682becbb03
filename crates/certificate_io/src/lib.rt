//! Certificates and their texts: one text for each certificate.
#![tactic(auto)]

mod certificate;
mod evidence;
mod fault;
mod headings;
mod laws;
mod line_kind;
mod line_text;
mod lines;
mod polynomials;
mod print;
mod read;
mod sections;
mod shape;
mod values;
mod words;

pub use certificate::Certificate;
pub use evidence::{Evidence, Image, Line};
pub use fault::CertFault;
pub use laws::{certificates_of_texts, lines_of_texts, texts_of_certificates};
pub use print::{print_certificate, printed_length};
pub use read::read_certificate;
