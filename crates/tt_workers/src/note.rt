//! What passes note.
ghost use Rattle.std.specs.Prelude.{◌≡◌};
ghost use Rattle.tt_workers.specs.inside.Turns.{out_of};

use crate::boxed_interp::BoxedInterp;
use crate::next::Next;
use std::marker::Model;
use std::snapshot::Snapshot;
use tt_calls::Reply;
use tt_core::Began;
use tt_interp::Setup;

/// The thread that is out at a pass, and for contracts alone the interpreter and the reply as they were handed out.
#[derive(Drop)]
pub struct Out {
    pub(crate) thread: u32,
    pub(crate) interp: Snapshot<BoxedInterp>,
    pub(crate) reply: Snapshot<Option<Reply>>,
}

impl Model for Out {
    ghost use Rattle.tt_workers.specs.declared.next.Task.{Task};

    ghost Value = { Task };

    ghost view = { λ out. record { thread = out.thread; interp = out.interp.value; reply = out.reply.value } };
}

impl Out {
    /// Who is handed out, if anybody is.
    pub(crate) fn of(next: &Next) -> Option<Self>
        ensures { result ≡ out_of next.now }
    {
        match next {
            Next::Run(task) => Some(Out {
                thread: task.thread,
                interp: Snapshot::of(&task.interp),
                reply: Snapshot::of(&task.reply),
            }),
            Next::Rest | Next::Over => None,
        }
    }
}

/// What a pass notes: how the run began, for contracts alone, and who is out at the pass.
#[derive(Drop)]
pub struct Held<S, K, E> {
    pub(crate) setup: Snapshot<Setup>,
    pub(crate) steps: u32,
    pub(crate) devices: Snapshot<Began<S, K, E>>,
    pub(crate) out: Option<Out>,
}

impl<S, K, E> Model for Held<S, K, E> {
    ghost use Rattle.tt_workers.specs.inside.Places.{Note};

    ghost Value = { Note S K E };

    ghost view = { λ held. record {
      begun = record { setup = held.setup.value; steps = held.steps; devices = held.devices.value };
      out = held.out;
    } };
}
