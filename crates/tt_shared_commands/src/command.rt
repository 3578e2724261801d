ghost use Rattle.std.specs.Prelude.{◌≡◌, IfOk};
ghost use Rattle.tt_shared_commands.specs.Shared as table;

use crate::array::arrays;
use crate::counted::CountedRow;
use crate::running::{elements, locks};
use crate::searching::searches;
use std::alloc::Global;
use tt_command_tables::{Call, Command, Row, command_named};
use tt_text::{NoMemory, Text};

/// A command on shared variables (tsv(n)).
#[derive(Clone, Copy, Debug, PartialEq, Eq)]
pub enum SharedCommand {
    Names,
    Set,
    Get,
    Unset,
    Exists,
    Pop,
    Move,
    Incr,
    Append,
    Lappend,
    Llength,
    Lindex,
    Lrange,
    Lsearch,
    Linsert,
    Lreplace,
    Lpush,
    Lpop,
    Array,
    Lock,
}

const COMMANDS: [SharedCommand; 20] = [
    SharedCommand::Names,
    SharedCommand::Set,
    SharedCommand::Get,
    SharedCommand::Unset,
    SharedCommand::Exists,
    SharedCommand::Pop,
    SharedCommand::Move,
    SharedCommand::Incr,
    SharedCommand::Append,
    SharedCommand::Lappend,
    SharedCommand::Llength,
    SharedCommand::Lindex,
    SharedCommand::Lrange,
    SharedCommand::Lsearch,
    SharedCommand::Linsert,
    SharedCommand::Lreplace,
    SharedCommand::Lpush,
    SharedCommand::Lpop,
    SharedCommand::Array,
    SharedCommand::Lock,
];

/// The table.
pub(crate) fn row_of(command: SharedCommand) -> CountedRow
    ensures name { result.name.now ≡ (table.shared_row command).name }
    ensures usage { result.usage.now ≡ (table.shared_row command).usage }
    ensures least { result.least ≡ (table.shared_row command).least }
    ensures most { result.most ≡ (table.shared_row command).most }
{
    match command {
        SharedCommand::Names => CountedRow::new(b"tsv::names", b"tsv::names ?pattern?", 0, Some(1)),
        SharedCommand::Set => CountedRow::new(b"tsv::set", b"tsv::set a k ?v?", 2, Some(3)),
        SharedCommand::Get => CountedRow::new(b"tsv::get", b"tsv::get a k ?var?", 2, Some(3)),
        SharedCommand::Unset => CountedRow::new(b"tsv::unset", b"tsv::unset a ?k?", 1, Some(2)),
        SharedCommand::Exists => CountedRow::new(b"tsv::exists", b"tsv::exists a ?k?", 1, Some(2)),
        SharedCommand::Pop => CountedRow::new(b"tsv::pop", b"tsv::pop a k", 2, Some(2)),
        SharedCommand::Move => CountedRow::new(b"tsv::move", b"tsv::move a k new", 3, Some(3)),
        SharedCommand::Incr => CountedRow::new(b"tsv::incr", b"tsv::incr a k ?n?", 2, Some(3)),
        SharedCommand::Append => CountedRow::new(
            b"tsv::append",
            b"tsv::append a k ?v ...?",
            2,
            None,
        ),
        SharedCommand::Lappend => CountedRow::new(
            b"tsv::lappend",
            b"tsv::lappend a k ?v ...?",
            2,
            None,
        ),
        SharedCommand::Llength => CountedRow::new(b"tsv::llength", b"tsv::llength a k", 2, Some(2)),
        SharedCommand::Lindex => CountedRow::new(
            b"tsv::lindex",
            b"tsv::lindex a k ?i?",
            2,
            Some(3),
        ),
        SharedCommand::Lrange => CountedRow::new(
            b"tsv::lrange",
            b"tsv::lrange a k i j",
            4,
            Some(4),
        ),
        SharedCommand::Lsearch => CountedRow::new(
            b"tsv::lsearch",
            b"tsv::lsearch a k ?mode? pattern",
            3,
            Some(4),
        ),
        SharedCommand::Linsert => CountedRow::new(
            b"tsv::linsert",
            b"tsv::linsert a k i ?v ...?",
            3,
            None,
        ),
        SharedCommand::Lreplace => CountedRow::new(
            b"tsv::lreplace",
            b"tsv::lreplace a k i j ?v ...?",
            4,
            None,
        ),
        SharedCommand::Lpush => CountedRow::new(b"tsv::lpush", b"tsv::lpush a k v ?i?", 3, Some(4)),
        SharedCommand::Lpop => CountedRow::new(b"tsv::lpop", b"tsv::lpop a k ?i?", 2, Some(3)),
        SharedCommand::Array => CountedRow::new(b"tsv::array", b"tsv::array set a list", 1, None),
        SharedCommand::Lock => CountedRow::new(b"tsv::lock", b"tsv::lock a arg ?arg ...?", 2, None),
    }
}

impl Command for SharedCommand {
    ghost name_of = { λ command. (table.shared_row command).name };

    ghost usage_of = { λ command. (table.shared_row command).usage };

    fn row(self) -> Row {
        row_of(self).row()
    }
}

impl SharedCommand {
    /// The command of this name.
    pub fn named(name: &[u8]) -> Option<Self>
        ensures { result ≡ table.shared_command name.now }
    {
        command_named(&COMMANDS, name)
    }

    /// What the words after this name mean.
    ///
    /// `NoMemory` if memory is refused.
    pub fn call(self, alloc: Global, name: &[u8], words: &[Text]) -> Result<Call, NoMemory>
        ensures { IfOk result (λ call. call ≡ table.shared_meaning self name.now words.now) }
    {
        match self {
            SharedCommand::Array => arrays(alloc, name, words),
            SharedCommand::Lock => locks(alloc, self.row().usage, words),
            SharedCommand::Lsearch => searches(alloc, name, words),
            SharedCommand::Names
            | SharedCommand::Set
            | SharedCommand::Get
            | SharedCommand::Unset
            | SharedCommand::Exists
            | SharedCommand::Pop
            | SharedCommand::Move
            | SharedCommand::Incr
            | SharedCommand::Append
            | SharedCommand::Lappend
            | SharedCommand::Llength
            | SharedCommand::Lindex
            | SharedCommand::Lrange
            | SharedCommand::Linsert
            | SharedCommand::Lreplace
            | SharedCommand::Lpush
            | SharedCommand::Lpop => elements(alloc, self, name, words),
        }
    }
}
