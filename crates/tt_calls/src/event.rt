use tt_text::Text;

/// What stands in the queue of a thread (thread(n)).
#[derive(Debug, Drop)]
pub enum Event {
    /// A sent script, as the post of this number; with `answer` its result is delivered, and without one an error of a
    /// `plain` one is reported plainly.
    Script {
        n: u64,
        script: Text,
        answer: bool,
        plain: bool,
    },
    /// A global variable's new value.
    SetVar {
        name: Text,
        value: Text,
    },
    /// A channel that was transferred to the thread.
    Moved {
        chan: Text,
    },
    /// The script of a timer that has rung, with the timer's number (after(n)).
    Timer {
        n: u64,
        script: Text,
    },
    /// The thread is to stop.
    Stop,
}
