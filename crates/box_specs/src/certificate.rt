//! The parts of a certificate, and why one is refused.

use price_grid::Steps;

/// A line of the tree of a certificate.
#[derive(Clone, Copy, Debug, PartialEq, Eq)]
pub enum CertLine {
    /// The box is split after `mid` steps of the dye of this number, from 1.
    Split { dye: u8, mid: u16 },
    /// This limit excludes the box.
    Limit(u8),
    /// This light fails on the box.
    Fail(u8),
    /// The box is too dear for the claim.
    Dear,
    /// The box is one recipe, which is undecided.
    Undecided,
    /// The box is one recipe, which passes.
    Pass,
}

/// What a certificate claims of the recipes.
#[derive(Debug, Drop)]
pub enum Claim {
    /// This is the first admitted recipe that passes.
    Match(Steps),
    /// No admitted recipe passes.
    NoMatch,
    /// No admitted recipe that costs less than this passes.
    Floor(u64),
}

/// Which boxes a certificate may leave without a line of their own: those of which no recipe matters
/// to what it claims.
#[derive(Debug, Drop)]
pub enum Cutoff {
    /// Those whose lower corner comes after this recipe.
    After(Steps),
    /// Those whose lower corner costs at least this.
    From(u64),
    /// None.
    Never,
}

/// A rule of the certificate's grammar.
#[derive(Clone, Copy, Debug, PartialEq, Eq)]
pub enum CertRule {
    /// The first line is not that of a certificate.
    BadHeader,
    /// The second line is no claim, or the third is not `undecided` with a number up to 1,000,000.
    BadClaim,
    /// A line that has to spell a listed recipe, or a line of the tree, does not.
    BadLine,
    /// The text ends before a line that is required, or within it.
    Missing,
    /// There is text after the whole tree.
    Left,
}

/// The first fault of a certificate's text, with its line from 1.
#[derive(Clone, Copy, Debug, PartialEq, Eq)]
pub struct CertFault {
    pub line: u32,
    pub rule: CertRule,
}

/// Why a line of a certificate does not hold.
#[derive(Clone, Copy, Debug, PartialEq, Eq)]
pub enum Why {
    /// The dye does not exist, or the box cannot be split there.
    BadSplit,
    /// The limit does not exclude the box.
    NotLimit,
    /// The light does not fail on the box.
    NotFailing,
    /// The box is not too dear for the claim.
    NotDear,
    /// The box has more than one recipe.
    NotPoint,
    /// The recipe is not both admitted and undecided.
    NotUndecided,
    /// The recipe is not both admitted and passing.
    NotPassing,
    /// The recipe of the match or a listed one is not of the grid, or the list does not rise, or
    /// the list, the claim and the lines do not agree.
    WrongList,
}

/// The result of checking a certificate.
#[derive(Clone, Copy, Debug, PartialEq, Eq)]
pub enum Checked {
    /// It is valid.
    Accepted,
    /// The line that fails, from 1, and why. Where several fail, it is the first in the order of
    /// the checks: the claim, the list, the tree, and then the list and the claim against the tree.
    Refused { line: u32, why: Why },
}
