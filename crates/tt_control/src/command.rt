//! The table of commands: names and usages.
ghost use Rattle.std.specs.Prelude.{◌≡◌};
ghost use Rattle.tt_control.specs.Table as table;

/// A command of the table.
#[derive(Clone, Copy, Debug, PartialEq, Eq)]
pub(crate) enum Command {
    Break,
    Catch,
    Continue,
    Dict,
    Error,
    Expr,
    For,
    Foreach,
    If,
    Return,
    Switch,
    While,
}

const COMMANDS: [Command; 12] = [
    Command::Break,
    Command::Catch,
    Command::Continue,
    Command::Dict,
    Command::Error,
    Command::Expr,
    Command::For,
    Command::Foreach,
    Command::If,
    Command::Return,
    Command::Switch,
    Command::While,
];

/// What the table says of a command, beside its meaning.
#[derive(Clone, Copy)]
struct Row {
    name: &'static [u8],
    usage: &'static [u8],
}

impl Row {
    fn new(name: &'static [u8], usage: &'static [u8]) -> Self
        ensures name { result.name.now ≡ name.now }
        ensures usage { result.usage.now ≡ usage.now }
    {
        Row { name, usage }
    }
}

/// The table.
fn row_of(command: Command) -> Row
    ensures name { result.name.now ≡ (table.row_of command).name }
    ensures usage { result.usage.now ≡ (table.row_of command).usage }
{
    match command {
        Command::Break => Row::new(b"break", b"break"),
        Command::Catch => Row::new(b"catch", b"catch script ?varName?"),
        Command::Continue => Row::new(b"continue", b"continue"),
        Command::Dict => Row::new(b"dict", b"dict for {k v} d body"),
        Command::Error => Row::new(b"error", b"error message ?info? ?code?"),
        Command::Expr => Row::new(b"expr", b"expr arg ?arg ...?"),
        Command::For => Row::new(b"for", b"for start test next body"),
        Command::Foreach => Row::new(b"foreach", b"foreach varList list ?varList list ...? body"),
        Command::If => Row::new(
            b"if",
            b"if expr1 ?then? body1 ?elseif expr2 ?then? body2 ...? ?else? ?bodyN?",
        ),
        Command::Return => Row::new(b"return", b"return ?-code code? ?value?"),
        Command::Switch => Row::new(
            b"switch",
            b"switch ?-exact? ?-glob? ?--? string pattern body ?pattern body ...?",
        ),
        Command::While => Row::new(b"while", b"while test body"),
    }
}

/// How the command is used.
pub(crate) fn usage(command: Command) -> &'static [u8]
    ensures { result.now ≡ (table.row_of command).usage }
{
    row_of(command).usage
}

fn first_named(commands: &[Command], name: &[u8]) -> Option<Command>
    ensures { result ≡ table.first_named commands.now name.now }
{
    commands
        .iter()
        .copied()
        .find(|command| name == row_of(*command).name)
}

/// The command of this name.
pub(crate) fn command_of(name: &[u8]) -> Option<Command>
    ensures { result ≡ table.command_of name.now }
{
    first_named(&COMMANDS, name)
}
