//! The colours that each channel of a net may have: the least closed family of sets, the pairs of a channel
//! with a colour, and the first pair that a list of allowed colours refuses.
#![tactic(auto)]

mod allow;
mod colours;
mod laws;
mod pairs;
mod spread;
mod word;

pub use allow::{ColourFault, allowed};
pub use colours::Colours;
pub use laws::cuts_hold;
pub use spread::infer;
