//! The commands: their words, their due files, and their reports, which are computed before they
//! are printed. What several of them share is beside this folder.

pub(crate) mod check;
pub(crate) mod demo;
pub(crate) mod diff;
pub(crate) mod ks;
pub(crate) mod lab;
pub(crate) mod search;
pub(crate) mod show;
pub(crate) mod xyz;
