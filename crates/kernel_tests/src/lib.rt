//! Tests of the intervals, their roots and the colour differences through their public calls. They
//! are in a crate of their own, so that no crate that they test is proved a second time for them.
#![tactic(auto)]

#[cfg(test)]
mod cie94;
#[cfg(test)]
mod cielab;
#[cfg(test)]
mod cmc;
#[cfg(test)]
mod intervals;
#[cfg(test)]
mod roots;
