//! The laws that what is printed is read back. A call does nothing; what it ensures is the law.
ghost use Rattle.dec_text.specs.RoundTrip.{ReadsBack, WholeReadsBack};

/// [`read_decimal`](crate::read_decimal) reads back what [`put_fixed`](crate::put_fixed) appends,
/// with the same number of decimals, at most 6, and for magnitudes of at most 10^15.
pub fn reads_back()
    ensures { ReadsBack }
{}

/// [`read_whole`](crate::read_whole) reads back what [`put_fixed`](crate::put_fixed) appends for a
/// number from 0 on with no decimals, where it accepts that many digits.
pub fn reads_whole_back()
    ensures { WholeReadsBack }
{}
