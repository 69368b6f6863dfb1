//! Tapes: the choices of a run, read in their three forms or drawn from a seed.
#![tactic(auto)]

mod draft;
mod drawn;
mod draws;
mod fault;
mod leap;
mod limits;
mod marks;
mod oracles;
mod part_rows;
mod read;
mod rows;
mod tape;
mod written;

pub use draws::{draw, next_number};
pub use fault::TapeFault;
pub use limits::{MOST_CYCLES, MOST_CYCLES_BY_CHANNELS};
pub use part_rows::PartRows;
pub use read::read_tape;
pub use rows::Rows;
pub use tape::Tape;
