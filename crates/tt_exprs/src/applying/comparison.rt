//! Comparisons and membership.
ghost use Rattle.std.specs.Prelude.{◌≡◌, length, IfOk};
ghost use Rattle.tt_exprs.specs.Apply.{comparand, is_item, is_member_of, is_same_text, order_of};

use super::refusal::Refusal;
use std::alloc::Global;
use std::cmp::Ordering;
use tt_lists::{Split, split};
use tt_number::{NumberFault, read_whole};
use tt_text::{NoMemory, Text};

/// How the two operands compare: as numbers if both are whole, else as texts.
pub(super) fn order(operands: &[Text]) -> Result<Ordering, Refusal>
    requires { length operands.now ≡ 2 }
    ensures { result ≡ order_of operands.now }
{
    let [a, b] = operands else { unreachable!() };
    let left = comparand(a)?;
    let right = comparand(b)?;
    match (left, right) {
        (Some(left), Some(right)) => Ok(left.cmp(&right)),
        _ => Ok(a.as_bytes().cmp(&b.as_bytes())),
    }
}

// The number that the text spells, if it spells one.
#[tactic(auto, unfolding(crate::specs::Apply::comparand))]
fn comparand(text: &Text) -> Result<Option<i64>, Refusal>
    ensures { result ≡ comparand text.now }
{
    match read_whole(text.as_bytes()) {
        Ok(number) => Ok(Some(number)),
        Err(NumberFault::NotWhole) => Ok(None),
        Err(NumberFault::TooLarge) => Err(Refusal::TooLarge),
        Err(NumberFault::Float) => Err(Refusal::Float),
    }
}

pub(super) fn is_same_text(operands: &[Text]) -> bool
    requires { length operands.now ≡ 2 }
    ensures { result ≡ is_same_text operands.now }
{
    let [a, b] = operands else { unreachable!() };
    a.as_bytes() == b.as_bytes()
}

/// Whether the first operand is an item of the second, a list.
pub(super) fn is_member(alloc: Global, operands: &[Text]) -> Result<Result<bool, Refusal>, NoMemory>
    requires { length operands.now ≡ 2 }
    ensures { IfOk result (λ member. member ≡ is_member_of operands.now) }
{
    let [text, list] = operands else {
        unreachable!()
    };
    match split(alloc, list.as_bytes())? {
        Split::Items(items) => Ok(Ok(is_item(text.as_bytes(), items.as_slice()))),
        Split::Bad(fault) => Ok(Err(Refusal::NotList(fault))),
    }
}

fn is_item(text: &[u8], items: &[Text]) -> bool
    ensures { result ≡ is_item text.now items.now }
{
    items.iter().any(|item| item.as_bytes() == text)
}
