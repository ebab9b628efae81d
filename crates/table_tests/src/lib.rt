//! Tests of decimals, tables, ratios and lights through their public calls. They are in a crate of
//! their own, so that none of the crates that they test is proved a second time for a few tests.
#![tactic(auto)]

#[cfg(test)]
mod columns;
#[cfg(test)]
mod decimals;
#[cfg(test)]
mod files;
#[cfg(test)]
mod four_lights;
#[cfg(test)]
mod lights;
#[cfg(test)]
mod ratios;
#[cfg(test)]
mod tables;
