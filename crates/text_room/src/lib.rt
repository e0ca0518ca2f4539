// What the test programs of the writers share: a case, in which a writer writes a room into a text room, a buffer of bytes that is
// all marks before the call and is lent from byte 8 on; what the call left; cases counted by kind.
#![tactic(auto)]

mod cases;
mod kinds;

pub use cases::{Case, Writer, try_files, try_writer};
pub use kinds::{Kind, Kinds};
