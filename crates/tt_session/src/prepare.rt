ghost use Rattle.std.specs.Prelude.{◌≡◌, ◌≢◌, ◌⊎◌, ◌↔◌, map, string_bytes, length, Some, Err};
ghost use Rattle.std.specs.Prelude.{IfOk, IfErr, IsErrOf, IsTrue};
ghost use Rattle.std.specs.Borrow.{Bor};
ghost use Rattle.tt_devices.specs.Faults.{Rises};
ghost use Rattle.tt_devices.specs.Names.{Tells};
ghost use Rattle.tt_words.specs.Asked.{WordsAskFor};
ghost use Rattle.tt_words.specs.Asked as words_asked;
ghost use Rattle.tt_words.specs.CodeValues.{text_of, asked_as_text, generate_as_text, plain_as_text, replay_as_text};
ghost use Rattle.tt_words.specs.CodeValues.{report_as_text};
ghost use Rattle.tt_session.specs.Answer.{IsRefusal, IsWordRefusal};
ghost use Rattle.tt_session.specs.Asking.{BeginsPlain, BeginsReplay, IsTooMuch, generate_setup};
ghost use Rattle.tt_session.specs.Choosing.{Freely, Replaying};
ghost use Rattle.tt_session.specs.inside.Following.{IsFileRefusal};

use crate::status::Refusal;
use std::alloc::Global;
use tt_core::Setup;
use tt_devices::{Files, ReadAnswer};
use tt_generate::workload;
use tt_schedule::{ReadSchedule, Schedule, read};
use tt_text::{NoMemory, Text, Texts};
use tt_words::{Asked, Generate, Plain, Replay, Report, read_words};

/// Races are reported of a schedule of at most so many entries.
const MOST_RACED: u64 = 10_000;

/// What the words ask for.
///
/// `Usage` exactly if they ask for nothing, and `NoMemory` if memory to read them is refused.
pub(crate) fn ask(alloc: Global, words: &[String]) -> Result<Asked<'_>, Refusal>
    ensures asked { IfOk result (λ asked. WordsAskFor (map string_bytes words.now) (asked_as_text asked)) }
    ensures refused { IfErr result (λ why. IsWordRefusal why (map string_bytes words.now)) }
{
    match read_words(alloc, words) {
        Ok(Some(asked)) => Ok(asked),
        Ok(None) => Err(Refusal::Usage),
        Err(_) => Err(Refusal::NoMemory),
    }
}

/// What a plain run begins with.
///
/// Else why there is none.
pub fn prepare_plain<F: Files>(
    alloc: Global,
    plain: &Plain<'_>,
    files: &mut F,
) -> Result<Setup, Refusal>
    ensures ready { IfOk result (λ setup.
        BeginsPlain (plain_as_text plain.now) (F.map files.old) setup (Freely plain.now.steps)) }
    ensures refused { IfErr result (λ why.
        IsRefusal F.Files (words_asked.plain (plain_as_text plain.now)) why files.old files.new) }
    ensures steady { (result ≢ Err Refusal.ReadFault) → F.read_fault_count files.new ≡ F.read_fault_count files.old }
    ensures same { F.map files.new ≡ F.map files.old }
    ensures no_write { F.write_fault_count files.new ≡ F.write_fault_count files.old }
{
    let script = match read_file(alloc, files, plain.script) {
        Ok(script) => script,
        Err(why) => return Err(why),
    };
    match setup_of(alloc, &script, plain.script, &plain.arguments, plain.limit) {
        Ok(setup) => Ok(setup),
        Err(_) => Err(Refusal::NoMemory),
    }
}

/// What a replay begins with, and the schedule that it follows.
#[derive(Drop)]
pub(crate) struct Prepared {
    pub(crate) setup: Setup,
    pub(crate) given: Schedule,
}

/// What a replay begins with: reads the script, the schedule and its text, in this order.
///
/// Else which of them is wrong.
pub(crate) fn prepare_replay<F: Files>(
    alloc: Global,
    replay: &Replay<'_>,
    files: &mut F,
) -> Result<Prepared, Refusal>
    ensures ready { IfOk result (λ prepared. BeginsReplay (replay_as_text replay.now) (F.map files.old) prepared.setup
        (Replaying prepared.given.threads)) }
    ensures refused { IfErr result (λ why.
        IsRefusal F.Files (words_asked.replay (replay_as_text replay.now)) why files.old files.new) }
    ensures steady { (result ≢ Err Refusal.ReadFault) → F.read_fault_count files.new ≡ F.read_fault_count files.old }
    ensures same { F.map files.new ≡ F.map files.old }
    ensures no_write { F.write_fault_count files.new ≡ F.write_fault_count files.old }
{
    let script = match read_file(alloc, files, replay.script) {
        Ok(script) => script,
        Err(why) => return Err(why),
    };
    let text = match read_file(alloc, files, replay.schedule) {
        Ok(text) => text,
        Err(why) => return Err(why),
    };
    let Ok(read) = read(alloc, &text) else {
        return Err(Refusal::NoMemory);
    };
    let given = match read {
        ReadSchedule::Read(given) => given,
        ReadSchedule::Bad(fault) => return Err(Refusal::BadText(fault.place)),
    };
    if is_too_long(&replay.report, &given) {
        return Err(Refusal::TooLong(given.len()));
    }
    let Ok(setup) = setup_of(
        alloc,
        &script,
        replay.script,
        &replay.arguments,
        replay.limit,
    ) else {
        return Err(Refusal::NoMemory);
    };
    Ok(Prepared { setup, given })
}

/// Whether a schedule is too long for what is to be reported.
fn is_too_long(report: &Report<'_>, given: &Schedule) -> bool
    ensures { IsTrue result ↔ IsTooMuch (report_as_text report.now) (length given.now.threads) }
{
    match report {
        Report::Races => given.len() > MOST_RACED,
        _ => false,
    }
}

/// What a run of a script begins with that is made of a number.
pub(crate) fn prepare_generated(alloc: Global, generate: &Generate<'_>) -> Result<Setup, NoMemory>
    ensures { IfOk result (λ setup. setup ≡ generate_setup (generate_as_text generate.now)) }
{
    Ok(Setup {
        script: workload(alloc, generate.number, generate.size)?,
        name: Text::from_bytes(alloc, generate.script.as_bytes())?,
        arguments: Texts::new(alloc),
        limit: generate.limit,
    })
}

/// What a run of the script begins with.
fn setup_of(
    alloc: Global,
    script: &[u8],
    name: &str,
    arguments: &[&str],
    limit: u64,
) -> Result<Setup, NoMemory>
    ensures script { IfOk result (λ setup. setup.script ≡ script.now) }
    ensures name { IfOk result (λ setup. setup.name ≡ name.now) }
    ensures arguments { IfOk result (λ setup. setup.arguments ≡ map text_of arguments.now) }
    ensures limit { IfOk result (λ setup. setup.limit ≡ limit) }
{
    Ok(Setup {
        script: Text::from_bytes(alloc, script)?,
        name: Text::from_bytes(alloc, name.as_bytes())?,
        arguments: texts(alloc, arguments)?,
        limit,
    })
}

/// The words as texts.
fn texts(alloc: Global, words: &[&str]) -> Result<Texts, NoMemory>
    ensures { IfOk result (λ texts. texts ≡ map text_of words.now) }
{
    let mut texts = Texts::new(alloc);
    for word in words {
        texts.push(Text::from_bytes(alloc, word.as_bytes())?)?;
    }
    Ok(texts)
}
/// The bytes of a file.
///
/// Else why there are none.
pub(crate) fn read_file<F: Files>(
    alloc: Global,
    files: &mut F,
    name: &str,
) -> Result<Vec<u8>, Refusal>
    ensures found { IfOk result (λ bytes. Tells (F.map files.old) name.now (Some bytes.items)) }
    ensures refused { IfErr result (λ why. IsFileRefusal why (F.map files.old) name.now) }
    ensures cause { IsErrOf result Refusal.ReadFault →
        Rises (F.read_fault_count files.old) (F.read_fault_count files.new) }
    ensures steady { (result ≢ Err Refusal.ReadFault) → F.read_fault_count files.new ≡ F.read_fault_count files.old }
    ensures same { F.map files.new ≡ F.map files.old }
    ensures no_write { F.write_fault_count files.new ≡ F.write_fault_count files.old }
{
    match files.read(alloc, name) {
        Ok(bytes) => Ok(bytes),
        Err(ReadAnswer::Missing) => Err(missing(alloc, name)),
        Err(ReadAnswer::Failed) => Err(Refusal::ReadFault),
        Err(ReadAnswer::NoMemory) => Err(Refusal::NoMemory),
    }
}

/// That there is no file of this name.
fn missing(alloc: Global, name: &str) -> Refusal
    ensures { (result ≡ Refusal.NoFile name.now) ⊎ (result ≡ Refusal.NoMemory) }
{
    match Text::from_bytes(alloc, name.as_bytes()) {
        Ok(name) => Refusal::NoFile(name),
        Err(_) => Refusal::NoMemory,
    }
}
