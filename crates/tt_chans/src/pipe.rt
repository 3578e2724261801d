ghost use Rattle.std.specs.Prelude.{◌≡◌, ◌++◌, ◌∷◌, ◌↔◌, ◌≤◌, [], None, IfOk, OnOk, drop, length, option_to_list, take};
ghost use Rattle.tt_chans.specs.Lines.{first_line, has_line, is_newline, later_lines, line_length};

use std::alloc::Global;
use std::collections::VecDeque;
use std::marker::Model;
use tt_text::{NoMemory, Text};

/// The bytes that were put into a pipe and not yet taken out. Contracts see the list.
#[derive(Debug, Drop)]
pub struct Pipe {
    bytes: VecDeque<u8>,
    // How many of them are newlines.
    lines: usize,
}

impl Model for Pipe {
    ghost use Rattle.std.specs.Prelude.{ℕ, List, ◌≡◌, count_by};
    ghost use Rattle.tt_chans.specs.Lines.{is_newline};

    ghost Value = { List ℕ };

    ghost view = { λ pipe. pipe.bytes.items };

    ghost invariant = { λ pipe. pipe.lines ≡ count_by is_newline pipe.bytes.items };
}

impl Pipe {
    /// No bytes. It takes no memory.
    pub(crate) fn new(alloc: Global) -> Self
        ensures { result ≡ [] }
    {
        Pipe {
            bytes: VecDeque::new(alloc),
            lines: 0,
        }
    }

    // Whether there is a newline.
    pub(crate) fn has_line(&self) -> bool
        ensures { result ≡ has_line self.now }
    {
        self.lines > 0
    }

    // Puts bytes behind the others.
    pub(crate) fn put(&mut self, bytes: &[u8]) -> Result<(), NoMemory>
        ensures { OnOk result (self.new ≡ self.old ++ bytes.now) }
    {
        for byte in bytes {
            self.push(*byte)?;
        }
        Ok(())
    }

    fn push(&mut self, byte: u8) -> Result<(), NoMemory>
        ensures { OnOk result (self.new ≡ self.old ++ byte ∷ []) }
    {
        self.bytes.push_back(byte)?;
        self.lines += usize::from(is_newline(byte));
        Ok(())
    }

    fn take(&mut self) -> Option<u8>
        ensures taken { self.old ≡ option_to_list result ++ self.new }
        ensures none { result ≡ None ↔ (self.old ≡ []) }
        ensures rest { self.new ≡ drop 1 self.old }
    {
        let byte = self.bytes.pop_front()?;
        self.lines -= usize::from(is_newline(byte));
        Some(byte)
    }

    // Takes the bytes up to the first newline, and that too; all if there is none.
    pub(crate) fn take_line(&mut self, alloc: Global) -> Result<Text, NoMemory>
        ensures line { IfOk result (λ line. line ≡ first_line self.old) }
        ensures rest { OnOk result (self.new ≡ later_lines self.old) }
    {
        let count = self.line_length();
        let line = self.take_bytes(alloc, count)?;
        // The newline, if there is one.
        self.take();
        Text::from_vec(alloc, line)
    }

    // Takes all bytes.
    pub(crate) fn take_all(&mut self, alloc: Global) -> Result<Text, NoMemory>
        ensures all { IfOk result (λ bytes. bytes ≡ self.old) }
        ensures none { OnOk result (self.new ≡ []) }
    {
        let count = self.bytes.len();
        let bytes = self.take_bytes(alloc, count)?;
        Text::from_vec(alloc, bytes)
    }

    // How many bytes stand before the first newline.
    fn line_length(&self) -> usize
        ensures length { result ≡ line_length self.now }
        ensures within { result ≤ length self.now }
    {
        self.bytes
            .iter()
            .take_while(|byte| !is_newline(**byte))
            .count()
    }

    fn take_bytes(&mut self, alloc: Global, count: usize) -> Result<Vec<u8>, NoMemory>
        requires { count ≤ length self.old }
        ensures bytes { IfOk result (λ bytes. bytes.items ≡ take count self.old) }
        ensures rest { OnOk result (self.new ≡ drop count self.old) }
    {
        let mut bytes = Vec::new(alloc);
        for _ in 0..count {
            if let Some(byte) = self.take() {
                bytes.push(byte)?;
            }
        }
        Ok(bytes)
    }
}

fn is_newline(byte: u8) -> bool
    ensures { result ≡ is_newline byte }
{
    byte == b'\n'
}
