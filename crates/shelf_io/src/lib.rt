//! Files and output through two traits, `Shelf` and `Sink`, each implemented in memory and over the
//! real system, and a function that reads a whole file within a limit.
#![tactic(auto)]

mod calls;
mod failed;
mod faults;
mod mem_shelf;
mod mem_sink;
mod open_file;
mod real_shelf;
mod real_sink;
mod shelf;
mod sink;
mod slot;
mod stored;
mod whole_file;

pub use failed::Failed;
pub use mem_shelf::MemShelf;
pub use mem_sink::MemSink;
pub use real_shelf::RealShelf;
pub use real_sink::RealSink;
pub use shelf::Shelf;
pub use sink::Sink;
pub use whole_file::{TakeFault, take_file};
