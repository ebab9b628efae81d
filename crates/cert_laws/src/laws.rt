//! The laws. A call does nothing; what it ensures is the law.

ghost use Rattle.box_specs.specs.Landscape.{Land};
ghost use Rattle.cert_laws.specs.Laws.{ResultFits, ResultIsFirst, ResultIsRead, ResultIsShort, ResultIsValid, ResultMeans};

/// For a budget of up to 1,000,000 boxes the numbers of the certificate of a search are in their
/// ranges, its text is shorter than 40,000,000 bytes, and the text is read as that certificate.
pub fn text()
    ensures fits { (l : Land) → ResultFits l }
    ensures short { (l : Land) → ResultIsShort l }
    ensures read { (l : Land) → ResultIsRead l }
{}

/// The certificate of a search is valid, and what it claims holds: its claim is the first recipe
/// that is admitted and passes, that there is none, or a cost below which there is none.
pub fn claim()
    ensures valid { (l : Land) → ResultIsValid l }
    ensures means { (l : Land) → ResultMeans l }
    ensures first { (l : Land) → ResultIsFirst l }
{}
