use crate::note::Held;
use crate::world::World;
use std::marker::PhantomData;
use tt_devices::{Sink, Source};
use tt_noted::Tie;

/// What ties a world to the notes of the workers' passes.
pub struct Tied<S, K, E> {
    of: PhantomData<(S, K, E)>,
}

impl<S: Source + Send, K: Sink + Send, E: Sink + Send> Tie for Tied<S, K, E> {
    ghost use Rattle.tt_workers.specs.inside.World.{IsTied};

    // A turn moves the state several times.
    type State = Box<World<S, K, E>>;

    type Note = Held<S, K, E>;

    ghost fits = { λ world notes. IsTied S.Source K.Sink E.Sink world.value notes };
}
