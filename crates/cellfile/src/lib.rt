// Inner, for the calls: the files. `format` has their numbers, `decode` reads the fields of a record, `write` writes a
// file.
#![tactic(auto)]

pub mod decode;
pub mod format;
pub mod records;
pub mod write;
