//! All that the program `dye` does, from the words of its command line to its status: one public
//! call, generic over the shelf that it reads and writes, and the sink that it prints to.
#![tactic(auto)]

mod cert_words;
mod colour;
mod command;
mod commands;
mod coordinates;
mod inputs;
mod jobs;
mod lines;
mod recipes;
mod seed;
mod tables;
mod tolerance;
mod top;
mod words;

pub use top::run;
