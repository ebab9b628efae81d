//! The CIE94 colour difference of intervals at every scale, and the choice of one of two formulas,
//! CMC(l:c) or CIE94. The crate has definitions and their laws, and no code.
#![tactic(auto)]
