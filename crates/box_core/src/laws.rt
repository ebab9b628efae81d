//! The laws of boxes, of the answer and of the tree. A call does nothing; what it ensures is the
//! law.
ghost use Rattle.box_specs.specs.Answer.{AnswerIsFirst, FirstIsAnswer};
ghost use Rattle.box_specs.specs.Landscape.{Land};
ghost use Rattle.box_specs.specs.Splits.{HalvesPartition, RuleFits};
ghost use Rattle.box_specs.specs.Tree.{TreeIsSmall};

/// The laws of [`split`](crate::split) and [`halves`](crate::halves).
pub fn halves()
    ensures fits { RuleFits }
    ensures partition { HalvesPartition }
{}

/// The answer is the first recipe that is admitted and passes, and there is none where there is no
/// such recipe. It is the first of those recipes in their order.
pub fn answer()
    ensures answer { (l : Land) → AnswerIsFirst l }
    ensures first { (l : Land) → FirstIsAnswer l }
{}

/// The tree of G recipes has at most 2G - 1 boxes.
pub fn tree()
    ensures { (l : Land) → TreeIsSmall l }
{}
