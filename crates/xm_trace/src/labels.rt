//! What stands before the colour of a move, made once for each channel.

ghost use Rattle.std.specs.Prelude.{◌≡◌, ◌+◌, ◌*◌, ◌^◌, ◌<◌, ◌≤◌, ◌++◌, length, take, IfOk, IsTrue};
ghost use Rattle.xm_model.specs.Limits.{most_channels};
ghost use Rattle.xm_model.specs.TextLines.{name_at};
ghost use Rattle.xm_model.specs.Naming.{naming_of, texts_of};
ghost use Rattle.xm_trace.specs.Inner.Labels.{AreLabels, AreReady, label_text, labelled_of, move_room};
ghost use Rattle.xm_trace.specs.Inner.Pieces.{AreWithin, pieces_text};
ghost use Rattle.xm_trace.specs.Labels.{AreLabelsOf};
ghost use Rattle.xm_trace.specs.Text.{move_label};

use crate::pieces::{Pieces, no_pieces, pairs_of, pieces_of, put_at};
use crate::trace::Move;
use std::alloc::Global;
use std::marker::Model;
use xm_model::{List, Names, OutOfMemory, Text};

fn label_of(alloc: Global, channel: &Text) -> Result<Text, OutOfMemory>
    ensures { IfOk result (λ label. label.items ≡ move_label channel.now.items) }
{
    let mut label = Text::new(alloc);
    label.push_bytes(b" ")?;
    label.push_bytes(channel.as_bytes())?;
    label.push_bytes(b":")?;
    Ok(label)
}

/// A label for each channel.
pub fn labels_of(alloc: Global, channels: &[Text]) -> Result<List<Text>, OutOfMemory>
    ensures { IfOk result (λ labels. AreLabels channels.now labels.items) }
{
    let mut labels = List::new(alloc);
    for channel in channels {
        labels.push(label_of(alloc, channel)?)?;
    }
    Ok(labels)
}

/// The label of a channel.
pub fn label_at(labels: &[Text], channel: usize) -> &[u8]
    ensures { (channels : _) → AreLabels channels labels.now
        → result.now ≡ move_label (name_at (texts_of channels) channel) }
{
    match labels.get(channel) {
        Some(label) => label.as_bytes(),
        None => b" :",
    }
}

/// The two texts of a move: what stands before its colour, by channel, and the colour. `pairs` are both as one, that
/// of colour `d` on channel `c` at `c * width + d`; where these would be many there are none, and `width` is 0.
#[derive(Drop)]
pub struct MoveTexts {
    pub channels: Pieces,
    pub colours: Pieces,
    pub pairs: Pieces,
    pub width: u32,
}

/// How many pairs of a channel and a colour have a text of their own at most.
const MOST_PAIRS: usize = 4096;

/// Whether each pair is to have a text of its own.
fn are_few(channels: usize, colours: usize) -> bool
    ensures { IsTrue result → colours < 2 ^ 32 }
{
    channels <= MOST_PAIRS && colours <= MOST_PAIRS && channels * colours <= MOST_PAIRS
}

/// These texts, with those of their pairs where they are few.
fn with_pairs(
    alloc: Global,
    labels: &[Text],
    names: &[Text],
    channels: Pieces,
    colours: Pieces,
) -> Result<MoveTexts, OutOfMemory>
    requires channels { pieces_text channels ≡ texts_of labels.now }
    requires channels_within { AreWithin channels }
    requires colours { pieces_text colours ≡ texts_of names.now }
    requires colours_within { AreWithin colours }
    ensures channels { IfOk result (λ texts. texts.channels ≡ channels) }
    ensures colours { IfOk result (λ texts. texts.colours ≡ colours) }
    ensures ready { IfOk result AreReady }
{
    if are_few(labels.len(), names.len()) {
        let pairs = pairs_of(alloc, labels, names)?;
        if pairs.widest as u64 <= channels.widest as u64 + colours.widest as u64 {
            return Ok(MoveTexts {
                channels,
                colours,
                pairs,
                width: names.len() as u32,
            });
        }
    }
    Ok(MoveTexts {
        channels,
        colours,
        pairs: no_pieces(alloc),
        width: 0,
    })
}

/// The texts of the moves of a net with these names.
fn move_texts(alloc: Global, names: &Names) -> Result<MoveTexts, OutOfMemory>
    ensures labels { IfOk result (λ texts. AreLabelsOf (naming_of names.now) (labelled_of texts)) }
    ensures ready { IfOk result AreReady }
{
    let labels = labels_of(alloc, names.channels.as_slice())?;
    let channels = pieces_of(alloc, labels.as_slice())?;
    let colours = pieces_of(alloc, names.colours.as_slice())?;
    with_pairs(
        alloc,
        labels.as_slice(),
        names.colours.as_slice(),
        channels,
        colours,
    )
}

/// How many bytes of room the moves of a cycle need at most.
pub fn room_of_moves(texts: &MoveTexts, channels: u32) -> usize
    requires { channels ≤ most_channels }
    ensures room { result ≡ channels * move_room texts.now }
    ensures few { result < 2 ^ 47 }
{
    channels as usize * (texts.channels.widest as usize + texts.colours.widest as usize)
}

/// Writes the text of a move at this place, and gives the place behind it.
#[inline(always)]
pub fn put_move(out: &mut [u8], at: usize, texts: &MoveTexts, it: Move) -> usize
    requires ready { AreReady texts.now }
    requires room { at + move_room texts.now ≤ length out.old }
    ensures text { take result out.new ≡ take at out.old ++ label_text (labelled_of texts.now) it }
    ensures within { result ≤ at + move_room texts.now }
    ensures len { length out.new ≡ length out.old }
{
    if (it.colour as u32) < texts.width {
        let pair = it.channel as usize * texts.width as usize + usize::from(it.colour);
        if pair < texts.pairs.list.len() {
            return put_at(out, at, &texts.pairs, pair);
        }
    }
    let labelled = put_at(out, at, &texts.channels, it.channel as usize);
    put_at(out, labelled, &texts.colours, usize::from(it.colour))
}

/// What the lines of a run are made of, made once for the run. A contract sees what stands before the colour of a
/// move, for each channel, and the names of the colours.
#[derive(Drop)]
pub struct Labels {
    texts: MoveTexts,
}

impl Model for Labels {
    ghost use Rattle.xm_trace.specs.Labels.{Labelled};

    ghost Value = { Labelled };

    ghost use Rattle.xm_trace.specs.Inner.Labels.{AreReady, labelled_of};

    ghost view = { λ it. labelled_of it.texts };

    ghost invariant = { λ it. AreReady it.texts };
}

impl Labels {
    /// The labels of a net with these names. They take 32 bytes for each channel and colour, and for each pair of
    /// them if there are few, and the bytes of each text of more than 16 bytes, with what stands around a channel's
    /// name.
    pub fn new(alloc: Global, names: &Names) -> Result<Labels, OutOfMemory>
        ensures { IfOk result (AreLabelsOf (naming_of names.now)) }
    {
        let texts = move_texts(alloc, names)?;
        Ok(Labels { texts })
    }

    pub(crate) fn texts(&self) -> &MoveTexts
        ensures labels { labelled_of result.now ≡ self.now }
        ensures ready { AreReady result.now }
    {
        &self.texts
    }
}
