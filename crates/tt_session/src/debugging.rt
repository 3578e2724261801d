ghost use Rattle.std.specs.Prelude.{◌≡◌, ◌≢◌, ◌<◌, ◌∷◌, [], length, position, Some, Err};
ghost use Rattle.std.specs.Prelude.{IfOk, IfErr, IfSome, OnOk, OnErr};
ghost use Rattle.tt_devices.specs.Faults.{Rises};
ghost use Rattle.tt_devices.specs.Names.{Tells};
ghost use Rattle.tt_devices.specs.Streams.{Grows, GrowsByPart};
ghost use Rattle.tt_words.specs.Asked as words_asked;
ghost use Rattle.tt_words.specs.CodeValues.{replay_as_text, report_as_text};
ghost use Rattle.tt_session.specs.Answer.{AnswersTo, IsRefusal};
ghost use Rattle.tt_session.specs.Asking.{BeginsReplay};
ghost use Rattle.tt_session.specs.Choosing.{Replaying};
ghost use Rattle.tt_session.specs.Debugging.{AreShown, is_newline, lines_of};
ghost use Rattle.tt_session.specs.Lines.{PutsLine};
ghost use Rattle.tt_session.specs.Status.{ended_status};

use crate::ended::Ended;
use crate::line::put_status;
use crate::prepare::{Prepared, prepare_replay, read_file};
use crate::status::{End, Refusal};
use crate::without_workers::refuse;
use std::alloc::Global;
use tt_debug::Debug;
use tt_devices::{Failed, Files, Sink, Source};
use tt_schedule::Schedule;
use tt_words::Replay;

/// What a debugging session begins with.
#[derive(Drop)]
struct Session {
    replay: Prepared,
    commands: Vec<u8>,
}

/// Looks at a run that goes along a schedule, as the lines of a file say: each answer is put on output as one piece.
/// The run has an empty input, and what it writes is put nowhere.
pub(crate) fn debug<F: Files, S: Source, K: Sink, E: Sink>(
    alloc: Global,
    asked: &Replay<'_>,
    file: &str,
    files: &mut F,
    input: S,
    output: K,
    errors: E,
) -> Ended<S, K, E>
    requires { report_as_text asked.now.report ≡ words_asked.Debug file.now }
    ensures { AnswersTo F.Files S.Source K.Sink E.Sink (words_asked.replay (replay_as_text asked.now))
        files.old files.new (record { input = input; output = output; errors = errors }) result }
{
    match prepare_session(alloc, asked, file, files) {
        Err(why) => refuse(alloc, why, input, output, errors),
        Ok(session) => hold(alloc, session, input, output, errors),
    }
}

/// What a session begins with: reads what the replay begins with, and then the file with the commands.
///
/// Else which of them is wrong.
fn prepare_session<F: Files>(
    alloc: Global,
    asked: &Replay<'_>,
    file: &str,
    files: &mut F,
) -> Result<Session, Refusal>
    requires { report_as_text asked.now.report ≡ words_asked.Debug file.now }
    ensures ready { IfOk result (λ session. BeginsReplay (replay_as_text asked.now) (F.map files.old)
        session.replay.setup (Replaying session.replay.given.threads)) }
    ensures commands { IfOk result (λ session. Tells (F.map files.old) file.now (Some session.commands.items)) }
    ensures refused { IfErr result (λ why.
        IsRefusal F.Files (words_asked.replay (replay_as_text asked.now)) why files.old files.new) }
    ensures steady { (result ≢ Err Refusal.ReadFault) → F.read_fault_count files.new ≡ F.read_fault_count files.old }
    ensures same { F.map files.new ≡ F.map files.old }
    ensures no_write { F.write_fault_count files.new ≡ F.write_fault_count files.old }
{
    let replay = match prepare_replay(alloc, asked, files) {
        Ok(replay) => replay,
        Err(why) => return Err(why),
    };
    let commands = match read_file(alloc, files, file) {
        Ok(commands) => commands,
        Err(why) => return Err(why),
    };
    Ok(Session { replay, commands })
}

/// Holds a session, and reports how it ended.
fn hold<S, K: Sink, E: Sink>(
    alloc: Global,
    session: Session,
    input: S,
    output: K,
    errors: E,
) -> Ended<S, K, E>
    ensures shown { (end : _) × (result.status ≡ ended_status end)
        × AreShown K.Sink session.replay.setup session.replay.given.threads (lines_of session.commands.items) end
        output result.output }
    ensures no_step { result.schedule.threads ≡ [] }
    ensures input { result.input ≡ input }
    ensures line { PutsLine E.Sink (E.fault_count errors) result.status [] errors result.errors }
{
    let mut output = output;
    let mut errors = errors;
    let before = errors.faults();
    let end = show(alloc, session, &mut output);
    let status = end.status();
    put_status(&status, before, &mut errors);
    Ended {
        status,
        schedule: Schedule::new(alloc),
        input,
        output,
        errors,
    }
}

/// Puts what the commands show.
fn show<K: Sink>(alloc: Global, session: Session, output: &mut K) -> End
    ensures { AreShown K.Sink session.replay.setup session.replay.given.threads (lines_of session.commands.items)
        result output.old output.new }
{
    let Session { replay, commands } = session;
    let Ok(mut debug) = Debug::new(alloc, replay.setup, replay.given) else {
        return End::NoMemory;
    };
    answer_lines(&mut debug, &commands, output)
}

/// Puts the answers to all lines.
fn answer_lines<K: Sink>(debug: &mut Debug, commands: &[u8], output: &mut K) -> End
    requires begins { debug.old.place ≡ 0 }
    ensures shown { AreShown K.Sink debug.old.setup debug.old.given (lines_of commands.now) result
        output.old output.new }
{
    let mut rest = commands;
    while !rest.is_empty() {
        let (line, after) = cut_line(rest);
        let Ok(text) = debug.answer(line) else {
            return End::NoMemory;
        };
        match put_answer(output, text.as_bytes()) {
            Ok(()) => rest = after,
            Err(_) => return End::WriteFault,
        }
    }
    End::Done(0)
}

/// Puts an answer, if it isn't empty.
fn put_answer<K: Sink>(output: &mut K, answer: &[u8]) -> Result<(), Failed>
    ensures put { OnOk result (Grows (K.got output.old) (K.got output.new) answer.now) }
    ensures part { OnErr result (GrowsByPart (K.got output.old) (K.got output.new) answer.now) }
    ensures steady { OnOk result (K.fault_count output.new ≡ K.fault_count output.old) }
    ensures cause { OnErr result (Rises (K.fault_count output.old) (K.fault_count output.new)) }
{
    if answer.is_empty() {
        return Ok(());
    }
    output.put(answer)
}

/// The first line, and what follows its newline.
fn cut_line(text: &[u8]) -> (&[u8], &[u8])
    requires some { text.now ≢ [] }
    ensures lines { lines_of text.now ≡ result.0.now ∷ lines_of result.1.now }
    ensures shorter { length result.1.now < length text.now }
{
    match newline(text) {
        Some(place) => (&text[..place], &text[place + 1..]),
        None => (text, b""),
    }
}

/// The place of the first newline.
fn newline(text: &[u8]) -> Option<usize>
    ensures place { result ≡ position is_newline text.now }
    ensures within { IfSome result (λ place. place < length text.now) }
{
    text.iter().position(|byte| *byte == b'\n')
}
