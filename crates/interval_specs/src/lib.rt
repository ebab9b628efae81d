//! Interval arithmetic over whole numbers with outward rounding: definitions of its operations at
//! every scale and of one interval enclosing another, and the laws that connect them. The crate has
//! definitions and lemmas, and no code.
#![tactic(auto)]
