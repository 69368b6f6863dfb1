//! What a document is to a program.

use serde_json::Value;
use xm_model::{Allow, List, Names, Net};

/// A document: its net, the names of what it numbers, the only colours that channels may have, and the
/// tape and the proof, which other readers look at.
#[derive(Drop)]
pub struct Document {
    pub net: Net,
    pub names: Names,
    pub allow: List<Allow>,
    pub tape: Option<Value>,
    pub proof: Option<Value>,
}
