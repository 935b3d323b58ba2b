// Inner, for the reduction and solving: the working graph in two lent buffers. See specs/Slots and specs/Working.
// `graph` has the graph, `read` reads it, `change` changes it.
#![tactic(auto)]

pub mod change;
pub mod graph;
pub mod read;
mod words;
