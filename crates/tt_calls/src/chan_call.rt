use tt_text::Text;

/// A call on a channel (chan(n); thread(n), thread::detach, thread::attach, thread::transfer).
#[derive(Debug, Drop)]
pub enum ChanCall {
    /// Make a pipe.
    Pipe,
    /// Add bytes to it.
    Put { chan: Text, bytes: Text },
    /// Take its next line.
    GetLine { chan: Text },
    /// Whether it has ended.
    Eof { chan: Text },
    Close { chan: Text },
    /// Give it up, so that another thread can attach it.
    Detach { chan: Text },
    /// Own it, if nobody does.
    Attach { chan: Text },
    /// Give it to a thread.
    Transfer { id: Text, chan: Text },
    /// Wait until that thread has it.
    AwaitMove { chan: Text },
}
