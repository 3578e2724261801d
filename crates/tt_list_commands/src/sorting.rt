ghost use Rattle.std.specs.Prelude.{◌≡◌, IfOk, OnOk};
ghost use Rattle.std.specs.List.Sorted.{IsSorted};
ghost use Rattle.tt_lists.specs.Commands.{list_or_message};
ghost use Rattle.tt_list_commands.specs.inside.Runs.{equals_next, last_in_runs};
ghost use Rattle.tt_list_commands.specs.Sorting.{IsInOrder, IsSortUnless, fault_of, increasing};
ghost use Rattle.tt_list_commands.specs.Sorting.{sort_result};
ghost use Rattle.tt_list_commands.specs.Sorting.{number_fault, number_of, order};

use std::alloc::Global;
use std::cmp::{Ordering, Reverse};
use tt_number::read_whole;
use tt_text::{NoMemory, Text, Texts};

/// How items are put in order (lsort(n)).
#[derive(Clone, Copy, Debug, PartialEq, Eq)]
pub struct Sorting {
    /// Whether they are compared as whole numbers, or by their bytes.
    pub integer: bool,
    /// Whether the greatest comes first, or the least.
    pub decreasing: bool,
    /// Whether of equals the last alone stays.
    pub unique: bool,
}

/// A list's items in order (lsort(n)). Equals stay in the order that they have. Or, with `integer`, the message for the
/// first item that is no whole number.
///
/// `NoMemory` if memory is refused.
pub fn sort(alloc: Global, how: Sorting, items: &[Text]) -> Result<Result<Texts, Text>, NoMemory>
    ensures answer { IfOk result (λ sorted.
        IsSortUnless (fault_of how items.now) how items.now (list_or_message sorted)) }
{
    if let Some(message) = fault_of(alloc, how, items)? {
        return Ok(Err(message));
    }
    let mut sorted = Texts::from_copies(alloc, items)?.into_vec();
    put_in_order(how, &mut sorted)?;
    let rest = what_stays(alloc, how, sorted)?;
    Ok(Ok(rest))
}

fn fault_of(alloc: Global, how: Sorting, items: &[Text]) -> Result<Option<Text>, NoMemory>
    ensures { IfOk result (λ fault. fault ≡ fault_of how items.now) }
{
    if how.integer {
        number_fault(alloc, items)
    } else {
        Ok(None)
    }
}

fn number_fault(alloc: Global, items: &[Text]) -> Result<Option<Text>, NoMemory>
    ensures { IfOk result (λ fault. fault ≡ number_fault items.now) }
{
    for item in items {
        if let Err(fault) = read_whole(item.as_bytes()) {
            let message = fault.message(alloc, item.as_bytes())?;
            return Ok(Some(message));
        }
    }
    Ok(None)
}

fn put_in_order(how: Sorting, items: &mut Vec<Text>) -> Result<(), NoMemory>
    ensures { OnOk result (IsInOrder how items.old.items items.new.items) }
{
    match (how.integer, how.decreasing) {
        (false, false) => items.sort()?,
        (false, true) => items.sort_by(|a, b| b.cmp(a))?,
        (true, false) => items.sort_by_cached_key(|item| number_of(item.as_bytes()))?,
        (true, true) => items.sort_by_cached_key(|item| Reverse(number_of(item.as_bytes())))?,
    }
    Ok(())
}

fn number_of(item: &[u8]) -> i64
    ensures { result ≡ number_of item.now }
{
    read_whole(item).unwrap_or(0)
}

#[tactic(auto, using(crate::proofs::Equals::last_in_runs_is))]
fn what_stays(alloc: Global, how: Sorting, sorted: Vec<Text>) -> Result<Texts, NoMemory>
    requires { IsSorted (order how) sorted.items }
    ensures { IfOk result (λ rest. rest ≡ sort_result how sorted.items) }
{
    if !how.unique {
        return Ok(Texts::from(sorted));
    }
    last_in_runs(alloc, how, sorted.as_slice())
}

// In a sorted list equals stand together, so it is enough to look at the next item.
fn last_in_runs(alloc: Global, how: Sorting, sorted: &[Text]) -> Result<Texts, NoMemory>
    ensures { IfOk result (λ last. last ≡ last_in_runs how sorted.now) }
{
    let mut last = Texts::new(alloc);
    let mut rest = sorted;
    while let [item, later @ ..] = rest {
        if !equals_next(how, item.as_bytes(), later) {
            last.push(item.copy()?)?;
        }
        rest = later;
    }
    Ok(last)
}

fn equals_next(how: Sorting, item: &[u8], later: &[Text]) -> bool
    ensures { result ≡ equals_next how item.now later.now }
{
    later.first().is_some_and(|next| order(how, item, next.as_bytes()) == Ordering::Equal)
}

fn order(how: Sorting, a: &[u8], b: &[u8]) -> Ordering
    ensures { result ≡ order how a.now b.now }
{
    if how.decreasing {
        increasing(how, b, a)
    } else {
        increasing(how, a, b)
    }
}

fn increasing(how: Sorting, a: &[u8], b: &[u8]) -> Ordering
    ensures { result ≡ increasing how a.now b.now }
{
    if how.integer {
        number_of(a).cmp(&number_of(b))
    } else {
        a.cmp(b)
    }
}
