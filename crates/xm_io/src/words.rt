//! The words that a program was called with.

use xm_model::{List, Text};

/// The words in order, without the program's name.
#[derive(Drop)]
pub struct Words {
    pub words: List<Text>,
}
