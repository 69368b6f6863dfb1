//! The signals of a net.

ghost use Rattle.std.specs.Prelude.{◌≡◌};
ghost use Rattle.xm_order.specs.Loop.{rank};

/// One of the two signals of a channel, named by the channel: `Offer` is `irdy` with its data, `Ready` is
/// `trdy`.
#[derive(Clone, Copy, PartialEq, Eq, Debug)]
pub enum Signal {
    Offer(u32),
    Ready(u32),
}

/// The default is the offer of channel 0. It fills the free places of a short list.
impl Default for Signal {
    ghost use Rattle.std.specs.Prelude.{◌≡◌};
    ghost use Rattle.xm_order.specs.declared.signal.Signal.TheVariants as signal;

    ghost is_default = { λ it. it ≡ signal.Offer 0 };

    fn default() -> Signal {
        Signal::Offer(0)
    }
}

/// The rank of a signal in the order offer 0, ready 0, offer 1, and so on.
pub fn rank(it: Signal) -> usize
    ensures { result ≡ rank it }
{
    match it {
        Signal::Offer(c) => 2 * c as usize,
        Signal::Ready(c) => 2 * c as usize + 1,
    }
}
