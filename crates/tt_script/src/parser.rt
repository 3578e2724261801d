//! What nests: brackets, indices and the words around them (Tcl(n), rules 3 to 8).
ghost use Rattle.std.specs.Prelude.{◌≡◌, ◌+◌, ◌-◌, ◌≤◌, ◌<◌, false, true, length, drop, take, slice_index, IfOk};
ghost use Rattle.std.specs.Prelude.{IfSome, OnOk, IfErr};
ghost use Rattle.tt_script.specs.Words.{more, none, variable};
ghost use Rattle.tt_script.specs.inside.Parsing.{Answers, Continues, Refuses, ends_within};
ghost use Rattle.tt_script.specs.inside.Building.{Adds, Ends};
ghost use Rattle.tt_script.specs.Plain.{plain_part, plain_parts, plain_word, plain_words};
ghost use Rattle.tt_script.specs.Reading as reading;

use crate::braces::{braced_parts, closing_brace};
use crate::builder::{Builder, letters};
use crate::command::{Ending, ParseFault, Part, Place, Word};
use crate::elements::named;
use crate::mode::Mode;
use crate::names::{brace_end, name_end};
use crate::scan::{
    begins, ends_command, ends_parts, expands, gap_end, letters_end, separates, skip_end,
};
use crate::stop::Stop;
use std::alloc::Global;
use tt_text::{Text, backslash};

/// The variable of `${`, whose name begins here.
fn braced_variable(
    alloc: Global,
    text: &[u8],
    from: usize,
    mode: Mode,
) -> Result<(Part, usize), Stop>
    requires { from ≤ length text.now }
    ensures read { Answers mode plain_part result (reading.after from (reading.braced_variable (drop from text.now))) }
    ensures within { IfOk result (λ r. r.1 ≤ length text.now) }
{
    let end = brace_end(text, from);
    if end == text.len() {
        return Err(Stop::Fault(ParseFault::VariableBrace));
    }
    let part = named(alloc, &text[from..end], mode)?;
    Ok((part, end + 1))
}

/// The parts of a word in braces, whose text begins here.
fn braced(
    alloc: Global,
    text: &[u8],
    from: usize,
    place: Place,
    mode: Mode,
) -> Result<(Vec<Part>, usize), Stop>
    requires { from ≤ length text.now }
    ensures read { Answers mode (λ parts. plain_parts parts.items) result
        (reading.after from (reading.braced place (drop from text.now))) }
    ensures within { IfOk result (λ r. (from < r.1) × (r.1 ≤ length text.now)) }
{
    let Some(closing) = closing_brace(text, from) else {
        return Err(Stop::Fault(ParseFault::CloseBrace));
    };
    if !separates(text, closing.end + 1, place) {
        return Err(Stop::Fault(ParseFault::AfterBrace));
    }
    let parts = braced_parts(alloc, text, from, closing, mode)?;
    Ok((parts, closing.end + 1))
}

/// What `$` begins, with the text after it here.
#[cycle(parser)]
#[inline(always)]
pub(crate) fn variable(
    alloc: Global,
    text: &[u8],
    from: usize,
    depth: usize,
    mode: Mode,
) -> Result<(Part, usize), Stop>
    requires { from ≤ length text.now }
    ensures read { Answers mode plain_part result
        (reading.after from (reading.dollar (reading.level depth) (drop from text.now))) }
    ensures within { IfOk result (λ r. (from ≤ r.1) × (r.1 ≤ length text.now)) }
{
    if begins(text, from, b'{') {
        let (part, end) = braced_variable(alloc, text, from + 1, mode)?;
        return Ok((part, end));
    }
    let end = name_end(text, from);
    if end == from {
        return Ok((Part::Letters(mode.text(alloc, b"$")?), from));
    }
    let name = mode.text(alloc, &text[from..end])?;
    if !begins(text, end, b'(') {
        return Ok((Part::Variable(name), end));
    }
    let (parts, close) = index(alloc, text, end + 1, depth, mode)?;
    Ok((Part::Element(name, parts), close + 1))
}

/// The parts of an index, whose text begins here, and the place of its `)`.
#[cycle(parser)]
#[inline(always)]
fn index(
    alloc: Global,
    text: &[u8],
    from: usize,
    depth: usize,
    mode: Mode,
) -> Result<(Vec<Part>, usize), Stop>
    requires { from ≤ length text.now }
    ensures read { Answers mode (λ parts. plain_parts parts.items) result
        (reading.after from ((reading.level depth).index (drop from text.now))) }
    ensures within { IfOk result (λ r. (from ≤ r.1) × (r.1 < length text.now)) }
{
    if depth == 0 {
        return Err(Stop::Fault(ParseFault::TooDeep));
    }
    let (parts, end) = parts(alloc, text, from, Ending::Parenthesis, depth - 1, mode)?;
    Ok((parts, end))
}

/// The script in brackets, which begins here, and the place of its `]`. Its commands are read and skipped.
#[cycle(parser)]
#[inline(always)]
pub(crate) fn brackets(
    alloc: Global,
    text: &[u8],
    from: usize,
    depth: usize,
    mode: Mode,
) -> Result<(Text, usize), Stop>
    requires { from ≤ length text.now }
    ensures read { Answers mode (λ inside. inside) result
        (reading.after from ((reading.level depth).brackets (drop from text.now))) }
    ensures within { IfOk result (λ r. (from ≤ r.1) × (r.1 < length text.now)) }
{
    if depth == 0 {
        return Err(Stop::Fault(ParseFault::TooDeep));
    }
    let end = commands(alloc, text, from, depth - 1)?;
    let inside = mode.text(alloc, &text[from..end])?;
    Ok((inside, end))
}

/// Whole commands up to a `]`, and its place.
#[cycle(parser)]
fn commands(alloc: Global, text: &[u8], from: usize, depth: usize) -> Result<usize, Stop>
    requires { from ≤ length text.now }
    ensures read { Continues result (λ end. reading.takes tt end)
        (reading.after from (reading.commands (reading.level depth) 0 (drop from text.now))) }
    ensures within { IfOk result (λ end. (from ≤ end) × (end < length text.now)) }
{
    let mut at = from;
    'next_command: loop {
        let start = skip_end(text, at);
        if begins(text, start, b']') {
            return Ok(start);
        }
        if start == text.len() {
            return Err(Stop::Fault(ParseFault::CloseBracket));
        }
        let (_, end) = words(alloc, text, start, Place::Brackets, depth, Mode::Skip)?;
        at = end;
    }
}

/// The words of a command that begins here, and the place after the last one.
#[cycle(parser)]
pub(crate) fn words(
    alloc: Global,
    text: &[u8],
    from: usize,
    place: Place,
    depth: usize,
    mode: Mode,
) -> Result<(Vec<Word>, usize), Stop>
    requires here { from < length text.now }
    requires begins { reading.separates place (drop from text.now) ≡ false }
    ensures read { Answers mode (λ words. plain_words words.items) result
        (reading.after from (reading.words place (reading.level depth) 0 (drop from text.now))) }
    ensures within { IfOk result (λ r. (from < r.1) × (r.1 ≤ length text.now)) }
{
    let mut words = mode.words(alloc)?;
    let mut at = from;
    'next_word: loop {
        let (word, end) = word(alloc, text, at, place, depth, mode)?;
        mode.push_word(&mut words, word)?;
        at = gap_end(text, end);
        if ends_command(text, at, place) {
            return Ok((words, end));
        }
    }
}

/// The word that begins here, and the place after it.
#[cycle(parser)]
#[inline(always)]
fn word(
    alloc: Global,
    text: &[u8],
    from: usize,
    place: Place,
    depth: usize,
    mode: Mode,
) -> Result<(Word, usize), Stop>
    requires here { from < length text.now }
    requires begins { reading.separates place (drop from text.now) ≡ false }
    ensures read { Answers mode plain_word result
        (reading.after from (reading.word place (reading.level depth) (drop from text.now))) }
    ensures within { IfOk result (λ r. (from < r.1) × (r.1 ≤ length text.now)) }
{
    let expand = expands(text, from);
    let start = after_expansion(from, expand);
    let (parts, end) = word_parts(alloc, text, start, place, depth, mode)?;
    Ok((Word { expand, parts }, end))
}

/// The place after `{*}`, where a word begins so (Tcl(n), rule 5).
fn after_expansion(from: usize, expand: bool) -> usize
    requires { expand ≡ true → from + 3 ≤ usize.MAX }
    ensures expands { expand ≡ true → result ≡ from + 3 }
    ensures plain { expand ≡ false → result ≡ from }
{
    if expand { from + 3 } else { from }
}

/// The parts of a word in quotes, in braces or bare.
#[cycle(parser)]
#[inline(always)]
fn word_parts(
    alloc: Global,
    text: &[u8],
    from: usize,
    place: Place,
    depth: usize,
    mode: Mode,
) -> Result<(Vec<Part>, usize), Stop>
    requires { from ≤ length text.now }
    ensures read { Answers mode (λ parts. plain_parts parts.items) result
        (reading.after from (reading.word_parts place (reading.level depth) (drop from text.now))) }
    ensures within { IfOk result (λ r. (from ≤ r.1) × (r.1 ≤ length text.now)) }
    ensures later { reading.separates place (drop from text.now) ≡ false → IfOk result (λ r. from < r.1) }
{
    if begins(text, from, b'"') {
        let (parts, end) = quoted(alloc, text, from + 1, place, depth, mode)?;
        Ok((parts, end))
    } else if begins(text, from, b'{') {
        let (parts, end) = braced(alloc, text, from + 1, place, mode)?;
        Ok((parts, end))
    } else if let Some(end) = variable_end(text, from, place) {
        let name = mode.text(alloc, &text[from + 1..end])?;
        let parts = mode.one_part(alloc, Part::Variable(name))?;
        Ok((parts, end))
    } else if begins(text, from, b'[') {
        let (parts, end) = script_parts(alloc, text, from, place, depth, mode)?;
        Ok((parts, end))
    } else if let Some(end) = plain_end(text, from, Ending::Word(place)) {
        let plain = mode.text(alloc, &text[from..end])?;
        let parts = letters(alloc, plain)?;
        Ok((parts, end))
    } else {
        let (parts, end) = parts(alloc, text, from, Ending::Word(place), depth, mode)?;
        Ok((parts, end))
    }
}

/// The parts of a bare word whose first is the script in brackets that begins here. Most have no other.
#[cycle(parser)]
fn script_parts(
    alloc: Global,
    text: &[u8],
    from: usize,
    place: Place,
    depth: usize,
    mode: Mode,
) -> Result<(Vec<Part>, usize), Stop>
    requires here { from < length text.now }
    requires bracket { reading.begins 91 (drop from text.now) ≡ true }
    ensures read { Answers mode (λ parts. plain_parts parts.items) result
        (reading.after from (reading.parts (reading.level depth) (Ending.Word place) 0 (drop from text.now))) }
    ensures within { IfOk result (λ r. (from < r.1) × (r.1 ≤ length text.now)) }
{
    let (inside, close) = brackets(alloc, text, from + 1, depth, mode)?;
    if separates(text, close + 1, place) {
        let parts = mode.one_part(alloc, Part::Script(inside))?;
        return Ok((parts, close + 1));
    }
    let mut builder = Builder::new(alloc, mode);
    builder.push(alloc, Part::Script(inside))?;
    let end = push_more(
        alloc,
        text,
        close + 1,
        Ending::Word(place),
        depth,
        &mut builder,
    )?;
    Ok((builder.done, end))
}

/// The parts of a word in quotes, whose text begins here.
#[cycle(parser)]
fn quoted(
    alloc: Global,
    text: &[u8],
    from: usize,
    place: Place,
    depth: usize,
    mode: Mode,
) -> Result<(Vec<Part>, usize), Stop>
    requires { from ≤ length text.now }
    ensures read { Answers mode (λ parts. plain_parts parts.items) result
        (reading.after from (reading.quoted_word place (reading.level depth) (drop from text.now))) }
    ensures within { IfOk result (λ r. (from < r.1) × (r.1 ≤ length text.now)) }
{
    let (parts, end) = parts(alloc, text, from, Ending::Quote, depth, mode)?;
    if !separates(text, end + 1, place) {
        return Err(Stop::Fault(ParseFault::AfterQuote));
    }
    Ok((parts, end + 1))
}

/// Parts up to what ends them, and its place.
#[cycle(parser)]
pub(crate) fn parts(
    alloc: Global,
    text: &[u8],
    from: usize,
    ending: Ending,
    depth: usize,
    mode: Mode,
) -> Result<(Vec<Part>, usize), Stop>
    requires { from ≤ length text.now }
    ensures read { Answers mode (λ parts. plain_parts parts.items) result
        (reading.after from (reading.parts (reading.level depth) ending 0 (drop from text.now))) }
    ensures within { IfOk result (λ r. (from ≤ r.1) × ends_within ending r.1 (length text.now)) }
    ensures later { reading.ends_parts ending (drop from text.now) ≡ false → IfOk result (λ r. from < r.1) }
{
    let mut builder = Builder::new(alloc, mode);
    let end = push_parts(alloc, text, from, ending, depth, &mut builder)?;
    Ok((builder.done, end))
}

/// Adds the parts up to what ends them, so that all parts are whole, and answers its place.
#[cycle(parser)]
#[inline(always)]
fn push_parts(
    alloc: Global,
    text: &[u8],
    from: usize,
    ending: Ending,
    depth: usize,
    builder: &mut Builder,
) -> Result<usize, Stop>
    requires { from ≤ length text.now }
    ensures read { Ends (reading.level depth) ending text.now builder.old builder.new result from }
    ensures within { IfOk result (λ end. (from ≤ end) × ends_within ending end (length text.now)) }
    ensures later { reading.ends_parts ending (drop from text.now) ≡ false → IfOk result (λ end. from < end) }
{
    let mut at = from;
    while at < text.len() && !ends_parts(text, at, ending) {
        at = push_part(alloc, text, at, ending, depth, builder)?;
    }
    must_end(text, at, ending)?;
    builder.finish(alloc)?;
    Ok(at)
}

/// The same after a first part, apart from the code that most words take.
#[cycle(parser)]
#[cold]
#[inline(never)]
fn push_more(
    alloc: Global,
    text: &[u8],
    from: usize,
    ending: Ending,
    depth: usize,
    builder: &mut Builder,
) -> Result<usize, Stop>
    requires { from ≤ length text.now }
    ensures read { Ends (reading.level depth) ending text.now builder.old builder.new result from }
    ensures within { IfOk result (λ end. (from ≤ end) × ends_within ending end (length text.now)) }
{
    let end = push_parts(alloc, text, from, ending, depth, builder)?;
    Ok(end)
}

/// Adds the part that begins here, or a run of letters, and answers the place after it.
#[cycle(parser)]
#[inline(always)]
fn push_part(
    alloc: Global,
    text: &[u8],
    at: usize,
    ending: Ending,
    depth: usize,
    builder: &mut Builder,
) -> Result<usize, Stop>
    requires here { at < length text.now }
    requires goes_on { reading.ends_parts ending (drop at text.now) ≡ false }
    ensures read { Adds (reading.level depth) ending text.now builder.old builder.new result at }
    ensures within { IfOk result (λ next. (at < next) × (next ≤ length text.now)) }
    ensures mode { builder.new.mode ≡ builder.old.mode }
{
    match text[at] {
        b'$' => {
            let (part, next) = variable(alloc, text, at + 1, depth, builder.mode)?;
            builder.push(alloc, part)?;
            Ok(next)
        }
        b'[' => {
            let (inside, end) = brackets(alloc, text, at + 1, depth, builder.mode)?;
            builder.push(alloc, Part::Script(inside))?;
            Ok(end + 1)
        }
        b'\\' => {
            let sequence = backslash(text, at);
            builder.push_letters(&sequence.bytes[..usize::from(sequence.len)])?;
            Ok(sequence.next)
        }
        _ => {
            let next = letters_end(text, at + 1, ending);
            builder.push_letters(&text[at..next])?;
            Ok(next)
        }
    }
}

/// The end of a bare word that begins here, if it is `$` and a name alone.
#[inline(always)]
fn variable_end(text: &[u8], from: usize, place: Place) -> Option<usize>
    requires { from ≤ length text.now }
    ensures read { IfSome result (λ end. (level : reading.Level)
        → reading.after from (reading.parts level (Ending.Word place) 0 (drop from text.now))
        ≡ reading.takes (more (variable (take (end - (from + 1)) (drop (from + 1) text.now))) none) end) }
    ensures within { IfSome result (λ end. (from + 1 < end) × (end ≤ length text.now)) }
{
    if !begins(text, from, b'$') {
        return None;
    }
    let end = name_end(text, from + 1);
    if end > from + 1 && separates(text, end, place) {
        Some(end)
    } else {
        None
    }
}

/// The end of parts that begin here, where they are letters alone.
#[inline(always)]
fn plain_end(text: &[u8], from: usize, ending: Ending) -> Option<usize>
    requires { from ≤ length text.now }
    ensures read { IfSome result (λ end. (level : reading.Level)
        → reading.after from (reading.parts level ending 0 (drop from text.now))
        ≡ reading.takes (reading.letters_of (take (end - from) (drop from text.now))) end) }
    ensures within { IfSome result (λ end. (from ≤ end) × ends_within ending end (length text.now)) }
    ensures ends { IfSome result (λ end. reading.ends_parts ending (drop end text.now) ≡ true) }
{
    let end = letters_end(text, from, ending);
    if ends_parts(text, end, ending) {
        Some(end)
    } else {
        None
    }
}

/// Parts end here. Only a bare word may end where the text does.
fn must_end(text: &[u8], at: usize, ending: Ending) -> Result<(), Stop>
    requires within { at ≤ length text.now }
    requires ends { at < length text.now → reading.ends_parts ending (drop at text.now) ≡ true }
    ensures ok { OnOk result ((level : reading.Level)
        → reading.after at (reading.parts level ending 0 (drop at text.now)) ≡ reading.takes none at) }
    ensures closed { OnOk result (ends_within ending at (length text.now)) }
    ensures fault { IfErr result (λ stop. (level : reading.Level)
        → Refuses stop (reading.after at (reading.parts level ending 0 (drop at text.now)))) }
{
    if at < text.len() {
        return Ok(());
    }
    match ending {
        Ending::Word(_) => Ok(()),
        Ending::Quote => Err(Stop::Fault(ParseFault::CloseQuote)),
        Ending::Parenthesis => Err(Stop::Fault(ParseFault::CloseParen)),
    }
}
