//! Pairs of a channel and a colour, and those that a primitive sends on for one that comes in.

ghost use Rattle.std.specs.Prelude.{◌≡◌, ◌++◌};
ghost use Rattle.std.specs.Option.{option_to_list};
ghost use Rattle.xm_colours.specs.Inner.Spreading.{Covers, sent};
ghost use Rattle.xm_model.specs.Component.{component_of};
ghost use Rattle.xm_model.specs.Signals.{at_side};

use xm_model::{Prim, Side};

/// A channel with a colour of its set.
#[derive(Clone, Copy)]
pub struct Pair {
    pub channel: u32,
    pub colour: u8,
}

/// The input of a join whose colour goes on.
fn passing(a: u32, b: u32, pass: Side) -> u32
    ensures { result ≡ at_side pass a b }
{
    match pass {
        Side::A => a,
        Side::B => b,
    }
}

fn at(channel: u32, colour: u8) -> Option<Pair>
    ensures { result ≡ Some (record { channel = channel; colour = colour }) }
{
    Some(Pair { channel, colour })
}

/// The pairs that the primitive sends on for `it`, which comes in on one of its inputs.
pub fn sent(prim: &Prim, it: Pair) -> (Option<Pair>, Option<Pair>)
    requires { Covers (component_of prim.now) it.colour }
    ensures { option_to_list result.0 ++ option_to_list result.1 ≡ sent (component_of prim.now) it }
{
    let d = it.colour as usize;
    match prim {
        Prim::Source { .. } => (None, None),
        Prim::Sink { .. } => (None, None),
        Prim::Queue { out, .. } => (at(*out, it.colour), None),
        Prim::Function { out, map, .. } => (at(*out, map.as_slice()[d]), None),
        Prim::Fork {
            a,
            b,
            map_a,
            map_b,
            ..
        } => (at(*a, map_a.as_slice()[d]), at(*b, map_b.as_slice()[d])),
        Prim::Join { a, b, out, pass } => {
            if passing(*a, *b, *pass) == it.channel {
                (at(*out, it.colour), None)
            } else {
                (None, None)
            }
        }
        Prim::Switch { a, b, to_a, .. } => {
            if to_a.as_slice()[d] {
                (at(*a, it.colour), None)
            } else {
                (at(*b, it.colour), None)
            }
        }
        Prim::Merge { out, .. } => (at(*out, it.colour), None),
    }
}
