ghost use Rattle.certificate_io.specs.Laws.{CertificatesAreOne, LinesAreOne, PrintedAreTexts};

/// A text has one list of lines.
pub fn lines_of_texts()
    ensures one { LinesAreOne }
{}

/// The printed text of a certificate that meets the conditions on values is one of the grammar, and no condition on the
/// values of the text fails.
pub fn texts_of_certificates()
    ensures texts { PrintedAreTexts }
{}

/// A text is that of one certificate: those that meet the conditions on values and print the same text are equal.
pub fn certificates_of_texts()
    ensures one { CertificatesAreOne }
{}
