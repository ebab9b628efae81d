//! The laws of valid certificates. A call does nothing; what it ensures is the law.

ghost use Rattle.box_specs.specs.Landscape.{Land};
ghost use Rattle.box_specs.specs.Validity.{FailsUnlessValid};
ghost use Rattle.cert_check.specs.Laws.{GridIsListed, ValidMeans, ValidMeansFor};

/// In every lawful landscape, what a valid certificate claims holds of the plain list of all
/// recipes. A certificate of one whole tree is valid exactly where none of the checks fails.
pub fn validity()
    ensures means { (l : Land) → ValidMeans l }
    ensures lists { (l : Land) → ValidMeansFor l }
    ensures fails { (l : Land) → FailsUnlessValid l }
    ensures plain { (l : Land) → GridIsListed l }
{}
