ghost use Rattle.std.specs.Prelude.{◌≡◌};

use std::marker::Model;
use std::snapshot::Snapshot;

/// The devices of a run as they were given: for contracts alone, so that it takes no bytes.
#[derive(Drop)]
pub struct Began<S, K, E> {
    input: Snapshot<S>,
    output: Snapshot<K>,
    errors: Snapshot<E>,
}

impl<S, K, E> Model for Began<S, K, E> {
    ghost use Rattle.tt_core.specs.Stage.{Began as AnyBegan};

    ghost Value = { AnyBegan S K E };

    ghost view = { λ began. record {
      input = began.input.value;
      output = began.output.value;
      errors = began.errors.value;
    } };
}

impl<S, K, E> Began<S, K, E> {
    /// How these devices are now.
    pub fn of(input: &S, output: &K, errors: &E) -> Self
        ensures { result ≡ record { input = input.now; output = output.now; errors = errors.now } }
    {
        Began {
            input: Snapshot::of(input),
            output: Snapshot::of(output),
            errors: Snapshot::of(errors),
        }
    }
}
