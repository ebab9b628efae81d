//! The CMC(l:c) colour difference (ISO 105-J03) of intervals at every scale. The crate has
//! definitions and their laws, and no code.
#![tactic(auto)]
