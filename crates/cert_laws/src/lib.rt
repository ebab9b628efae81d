//! The laws of the certificate that a search with a budget of up to 1,000,000 boxes ends with: its
//! text is read as the same certificate, it is valid, and its claim holds.
#![tactic(auto)]

pub mod laws;
