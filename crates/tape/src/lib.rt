// The session tape: a reader and a writer of its records, and the lines of text that tell what is on it.
#![tactic(auto)]

mod draft;
mod fields;
pub mod lines;
pub mod listing;
pub mod reader;
pub mod writer;

pub use draft::ENOUGH_ROOM;
pub use reader::Reader;
pub use writer::write;
