//! The sets of colours of all channels.

ghost use Rattle.std.specs.Prelude.{◌≡◌};

use crate::word::{contains, count_below};
use std::marker::Model;
use xm_model::List;

/// The colours of each channel, as the least closed family of sets.
#[derive(Drop)]
pub struct Colours {
    words: List<u64>,
}

/// A contract sees each channel's colours, rising.
impl Model for Colours {
    ghost use Rattle.std.specs.Prelude.{ℕ, List as Items, ◌≤◌, length};
    ghost use Rattle.xm_colours.specs.Inner.Words.{sets_of};
    ghost use Rattle.xm_model.specs.Limits.{most_channels};

    ghost Value = { Items (Items ℕ) };

    ghost view = { λ c. sets_of c.words.items };

    ghost invariant = { λ c. length c.words.items ≤ most_channels };
}

impl Colours {
    ghost use Rattle.std.specs.Prelude.{◌≡◌, ◌↔◌, ◌≤◌, length, slice_get, IsTrue};
    ghost use Rattle.xm_colours.specs.Family.{colours_at};
    ghost use Rattle.xm_colours.specs.Pairs.{pairs};
    ghost use Rattle.xm_colours.specs.Inner.Words.{set_of, sets_of};
    ghost use Rattle.xm_model.specs.Membership.{IsIn};
    ghost use Rattle.xm_model.specs.Limits.{most_channels, most_colours};

    /// The sets of these words.
    pub(crate) fn of(words: List<u64>) -> Colours
        requires { length words.items ≤ most_channels }
        ensures { result ≡ sets_of words.items }
    {
        Colours { words }
    }

    /// The set of a channel, as a word.
    pub(crate) fn word(&self, channel: u32) -> u64
        ensures { colours_at self.now channel ≡ set_of result }
    {
        match self.words.as_slice().get(channel as usize) {
            Some(word) => *word,
            None => 0,
        }
    }

    /// Whether the colour is one of the channel. Constant time.
    pub fn has(&self, channel: u32, colour: u8) -> bool
        ensures { IsTrue result ↔ IsIn (colours_at self.now channel) colour }
    {
        let word = self.word(channel);
        colour < 64 && contains(word, colour)
    }

    /// How many colours the channel has.
    pub fn count(&self, channel: u32) -> u32
        ensures number { result ≡ length (colours_at self.now channel) }
        ensures few { result ≤ most_colours }
    {
        count_below(self.word(channel), 64)
    }

    /// The place of a colour among those of the channel, in colour order.
    pub fn place(&self, channel: u32, colour: u8) -> u32
        requires { IsIn (colours_at self.now channel) colour }
        ensures { slice_get (colours_at self.now channel) result ≡ Some colour }
    {
        count_below(self.word(channel), colour)
    }

    /// How many pairs there are: a channel with a colour of its set.
    pub fn pairs(&self) -> u64
        ensures { result ≡ length (pairs (colours_at self.now) (length self.now)) }
    {
        let mut count = 0;
        for word in self.words.as_slice() {
            count += count_below(*word, 64) as u64;
        }
        count
    }
}
