//! The forms that a command line may have.

/// The usage text.
pub(crate) const USAGE: &str = "\
usage: dye ks CURVES COLUMN
       dye xyz CURVES COLUMN WEIGHTS
       dye lab CURVES COLUMN WEIGHTS
       dye diff CURVES STANDARD SAMPLE WEIGHTS L10 C10 [TOL]
       dye show JOB STEPS
       dye predict JOB CERT
       dye correct JOB CERT
       dye check JOB CERT
       dye demo NUMBER
";
