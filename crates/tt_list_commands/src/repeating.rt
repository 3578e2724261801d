ghost use Rattle.std.specs.Prelude.{◌≡◌, ◌≢◌, ◌+◌, ◌*◌, ◌<◌, ◌^◌, ◌++◌, [], IfOk, Ok, codes, length, nat_le};
ghost use Rattle.std.specs.List.{flat_map, repeat};
ghost use Rattle.tt_lists.specs.Commands.{list_or_message};
ghost use Rattle.tt_lists.specs.Spelling.{later_item};
ghost use Rattle.tt_lists.specs.declared.answer.ListAnswer.TheVariants.{Bad};
ghost use Rattle.tt_list_commands.specs.Repeating.{repeat_answer, times, unless_long};

use std::alloc::Global;
use tt_lists::{join_list, push_later_items};
use tt_number::read_whole;
use tt_text::{NoMemory, Text, Texts};

/// The most bytes of a list that repeats items.
pub const LONGEST: usize = 268_435_456;

/// The values as many times as the count says (lrepeat(n)).
///
/// The message if the count is no whole number, if it is negative, and if the text of the list would have more than
/// `LONGEST` bytes; then the list isn't made. `NoMemory` if memory is refused.
pub fn repeat(alloc: Global, count: &[u8], values: &[Text]) -> Result<Result<Texts, Text>, NoMemory>
    ensures answer { IfOk result (λ made. list_or_message made ≡ repeat_answer count.now values.now) }
{
    match read_whole(count) {
        Ok(number) => times(alloc, number, count, values),
        Err(fault) => Ok(Err(fault.message(alloc, count)?)),
    }
}

fn times(
    alloc: Global,
    number: i64,
    count: &[u8],
    values: &[Text],
) -> Result<Result<Texts, Text>, NoMemory>
    ensures { IfOk result (λ made. list_or_message made ≡ times number count.now values.now) }
{
    if number < 0 {
        return bad_count(alloc, count);
    }
    repeated(alloc, number.unsigned_abs(), values)
}

fn bad_count(alloc: Global, count: &[u8]) -> Result<Result<Texts, Text>, NoMemory>
    ensures { IfOk result (λ made. list_or_message made ≡ Bad (codes "bad count \"" ++ (count.now ++ codes "\""))) }
{
    let mut message = Text::from_bytes(alloc, b"bad count \"")?;
    message.push_bytes(count)?;
    message.push_bytes(b"\"")?;
    Ok(Err(message))
}

fn repeated(alloc: Global, count: u64, values: &[Text]) -> Result<Result<Texts, Text>, NoMemory>
    ensures { IfOk result (λ made. list_or_message made ≡ unless_long (repeat count values.now)) }
{
    match values {
        [] => Ok(Ok(nothing(alloc, count))),
        _ if count == 0 => Ok(Ok(Texts::new(alloc))),
        _ => repeated_after(alloc, count - 1, values),
    }
}

#[tactic(auto, using(crate::proofs::Repeats::nothing_repeated))]
fn nothing(alloc: Global, count: u64) -> Texts
    ensures { list_or_message (Ok result) ≡ unless_long (repeat count []) }
{
    Texts::new(alloc)
}

fn repeated_after(
    alloc: Global,
    later: u64,
    values: &[Text],
) -> Result<Result<Texts, Text>, NoMemory>
    requires some { values.now ≢ [] }
    requires fits { later + 1 < 2 ^ 64 }
    ensures { IfOk result (λ made. list_or_message made ≡ unless_long (repeat (later + 1) values.now)) }
{
    let first = join_list(alloc, values)?;
    let again = later_text(alloc, values)?;
    if !fits(&first, later, &again) {
        return Ok(Err(Text::from_bytes(alloc, b"result too long")?));
    }
    let items = repeats(alloc, later + 1, values)?;
    Ok(Ok(items))
}

fn later_text(alloc: Global, values: &[Text]) -> Result<Text, NoMemory>
    ensures { IfOk result (λ text. text ≡ flat_map later_item values.now) }
{
    let mut text = Text::new(alloc);
    push_later_items(&mut text, values)?;
    Ok(text)
}

fn repeats(alloc: Global, count: u64, values: &[Text]) -> Result<Texts, NoMemory>
    ensures { IfOk result (λ items. items ≡ repeat count values.now) }
{
    let mut items = Texts::new(alloc);
    for _ in 0..count {
        items.push_copies(values)?;
    }
    Ok(items)
}

fn fits(first: &Text, later: u64, again: &Text) -> bool
    ensures { result ≡ nat_le (length first.now + later * length again.now) LONGEST }
{
    usize::try_from(later)
        .ok()
        .and_then(|times| times.checked_mul(again.len()))
        .and_then(|length| length.checked_add(first.len()))
        .is_some_and(|length| length <= LONGEST)
}
