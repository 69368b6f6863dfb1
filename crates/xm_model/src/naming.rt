//! The names of a net, and the only colours of channels.

ghost use Rattle.std.specs.Prelude.{◌≡◌};
ghost use Rattle.xm_model.specs.TextLines.{name_at};
ghost use Rattle.xm_model.specs.Naming.{texts_of};

use crate::list::List;
use crate::text::Text;

/// The only colours that a channel may have.
#[derive(Drop)]
pub struct Allow {
    pub channel: u32,
    pub colours: List<u8>,
}

/// The names of primitives, channels and colours, each by number.
#[derive(Drop)]
pub struct Names {
    pub prims: List<Text>,
    pub channels: List<Text>,
    pub colours: List<Text>,
}

/// The name with this number, which is empty where there is none.
pub fn name_of(names: &[Text], number: usize) -> &[u8]
    ensures { result.now ≡ name_at (texts_of names.now) number }
{
    match names.get(number) {
        Some(name) => name.as_bytes(),
        None => &[],
    }
}
