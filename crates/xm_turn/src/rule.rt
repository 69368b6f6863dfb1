//! The rule of a turn, which `specs/Rule.antt` states, and the steps that its passes take.
ghost use Rattle.std.specs.Prelude.{◌≡◌, ℕ};

use atomic_table::{Join, Play, Split, TableRule};
use std::marker::PhantomData;
use std::snapshot::Snapshot;

/// A value that names a run and has a floor, a cycle that all of it has reached.
pub trait Named: Send + Drop {
    /// What every pass of the value's turn names. No value of it is made.
    type Run;

    ghost run: { Self → Self.Run };

    ghost floor_of: { Self → ℕ };

    /// The value's floor.
    fn floor(&self) -> u64
        ensures { result ≡ floor_of self.now };
}

/// What a pass knows: the run, its shares and the number of all shares, whether it has the turn, and the greatest
/// floor that it has seen. No value of it is made. A spent pass has no share and names no run.
pub struct View<N> {
    pub run: Option<N>,
    pub shares: u32,
    pub all: u32,
    pub phase: Phase,
    pub seen: u64,
}

/// Whether a pass has the turn.
pub enum Phase {
    Free,
    /// It has the turn, and the value that it took has this floor.
    Holding(u64),
    /// It has the turn, and has looked at the floor since, which no other pass raises now.
    Looked,
}

/// What is told when a turn is opened: the value, and the number of all shares.
#[derive(Drop)]
pub struct About<V> {
    pub value: Snapshot<V>,
    pub all: u32,
}

/// The rule that a turn's table keeps.
pub struct Lock<V> {
    value: PhantomData<V>,
}

impl<V: Named> TableRule<Option<V>, View<V::Run>, About<V>> for Lock<V> {
    ghost use Rattle.xm_turn.specs.Rule.{Kept};
    ghost use Rattle.xm_turn.specs.Views.{opened};

    ghost holds = { λ k. Kept V.run V.floor_of (V.run k.value.value) k.all };

    ghost first = { λ k. opened (V.run k.value.value) k.all (V.floor_of k.value.value) };
}

/// A pass tries to take the turn.
pub(crate) struct Take<V> {
    value: PhantomData<V>,
}

impl<V: Named> Play<Option<V>, View<V::Run>> for Take<V> {
    ghost use Rattle.xm_turn.specs.Inner.Steps.{Takes};

    ghost then = { λ step. Takes V.run V.floor_of };
}

/// A pass looks at the floor.
pub(crate) struct Look;

impl<S, N> Play<S, View<N>> for Look {
    ghost use Rattle.xm_turn.specs.Inner.Steps.{Looks};

    ghost then = { λ step. Looks };
}

/// The pass that has the turn raises the floor.
pub(crate) struct Raise;

impl<S, N> Play<S, View<N>> for Raise {
    ghost use Rattle.xm_turn.specs.Inner.Steps.{Raises};

    ghost then = { λ step me found. Raises step me };
}

/// A pass gives the turn back.
pub(crate) struct Give;

impl<S, N> Play<S, View<N>> for Give {
    ghost use Rattle.xm_turn.specs.Inner.Steps.{Gives};

    ghost then = { λ step me found. Gives me };
}

/// How shares go from one pass to another.
pub(crate) struct Shares;

impl<N> Split<View<N>> for Shares {
    ghost use Rattle.xm_turn.specs.Views.{one_less, one_share};

    ghost left = { one_less };

    ghost right = { one_share };
}

impl<N> Join<View<N>> for Shares {
    ghost use Rattle.xm_turn.specs.Views.{together, spent};

    ghost both = { together };

    ghost spent = { spent };
}
