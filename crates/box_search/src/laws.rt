//! The laws of a search and its certificate. A call does nothing; what it ensures is the law.
ghost use Rattle.box_specs.specs.Landscape.{Land};
ghost use Rattle.box_search.specs.Laws.{CanonicalIsValid, NeedIsSmall, ResultIsCanonical, ResultIsOne};

/// The certificate that a search ends with is valid, whatever the budget.
pub fn canonical()
    ensures { (l : Land) → CanonicalIsValid l }
{}

/// A search has one result for each budget.
pub fn one_result()
    ensures one { (l : Land) → ResultIsOne l }
    ensures canonical { (l : Land) → ResultIsCanonical l }
{}

/// A search among G recipes needs at most 2G - 1 boxes.
pub fn need()
    ensures { (l : Land) → NeedIsSmall l }
{}
