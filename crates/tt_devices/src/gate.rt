ghost use Rattle.std.specs.Prelude.{◌≡◌, Bool, true, false};

/// A piece of a thread's work that is done once.
pub trait Slice {
    /// What a slice was made of.
    type About;

    /// Whether it was done.
    ghost gone: { Self → Bool };

    /// What it was made of. Doing it changes nothing of this.
    ghost about: { Self → Self.About };

    /// Does it.
    fn go(&mut self)
        requires { gone self.old ≡ false }
        ensures done { gone self.new ≡ true }
        ensures same { about self.new ≡ about self.old };
}

/// What a worker hands each slice to. A gate may hold the worker before it lets the slice go.
pub trait Gate {
    /// Lets the slice of this thread go, at this worker. Both are counted from 1.
    fn pass<W: Slice>(&self, worker: u32, thread: u32, slice: &mut W)
        requires { W.gone slice.old ≡ false }
        ensures done { W.gone slice.new ≡ true }
        ensures same { W.about slice.new ≡ W.about slice.old };
}

/// The gate that holds nobody.
#[derive(Clone, Copy, Debug, PartialEq, Eq)]
pub struct OpenGate;

impl Gate for OpenGate {
    fn pass<W: Slice>(&self, _worker: u32, _thread: u32, slice: &mut W) {
        slice.go();
    }
}
