ghost use Rattle.std.specs.Prelude.{◌≡◌, ◌≢◌, ◌<◌, ◌+◌, ◌^◌, ◌+ℤ◌, ◌↔◌, ℕ, FitsSigned, IfNone, IfOk, IfSome, IsErr};
ghost use Rattle.std.specs.Fmt.{decimal};
ghost use Rattle.std.specs.Int.{w64};
ghost use Rattle.tt_ids.specs.Ids.{number_named};

use itoa::Buffer;
use std::alloc::Global;
use tt_text::{NoMemory, Text};

/// The number in decimal, without leading zeros, as jobs are named (tpool(n), tpool::post).
///
/// `NoMemory` if the memory for the text is refused.
pub fn number_text(alloc: Global, number: u64) -> Result<Text, NoMemory>
    ensures written { IfOk result (λ text. text ≡ decimal number) }
{
    let mut buffer = Buffer::new();
    Text::from_bytes(alloc, buffer.format(number).as_bytes())
}

/// The number that the text writes in decimal without leading zeros; `None` exactly if it writes none below 2^64.
/// It takes no memory.
pub fn number_of(text: &[u8]) -> Option<u64>
    ensures small { IfSome result (λ number. number < 2 ^ 64) }
    ensures read { IfSome result (λ number. text.now ≡ decimal number) }
    ensures none { IfNone result ((n : ℕ) → n < 2 ^ 64 → text.now ≢ decimal n) }
    ensures named { result ≡ number_named text.now }
{
    let number = read_number(text);
    number
}

/// The number after this one, which the next of its kind draws. It takes no memory.
///
/// `NoMemory` exactly if the number after it is 2^64, which is more than any memory holds.
pub fn number_after(number: u64) -> Result<u64, NoMemory>
    ensures after { IfOk result (λ next. next ≡ number + 1) }
    ensures full { IsErr result ↔ (number + 1 ≡ 2 ^ 64) }
{
    number.checked_add(1).ok_or(NoMemory)
}

/// A count of holds with so many more, or less. It takes no memory.
///
/// `NoMemory` exactly if the sum is outside signed 64 bits, which is more than any run counts to.
pub fn count_with(count: i64, more: i64) -> Result<i64, NoMemory>
    ensures sum { IfOk result (λ sum. sum ≡ count +ℤ more) }
    ensures full { IsErr result ↔ ¬ FitsSigned w64 (count +ℤ more) }
{
    count.checked_add(more).ok_or(NoMemory)
}

fn read_number(text: &[u8]) -> Option<u64>
    ensures small { IfSome result (λ number. number < 2 ^ 64) }
    ensures read { IfSome result (λ number. text.now ≡ decimal number) }
    ensures none { IfNone result ((n : ℕ) → n < 2 ^ 64 → text.now ≢ decimal n) }
{
    match str::from_utf8(text) {
        Ok(text) => written_number(text),
        Err(_) => None,
    }
}

// A number has one spelling: no plus, no leading zero.
fn written_number(text: &str) -> Option<u64>
    ensures small { IfSome result (λ number. number < 2 ^ 64) }
    ensures read { IfSome result (λ number. text.now ≡ decimal number) }
    ensures none { IfNone result ((n : ℕ) → n < 2 ^ 64 → text.now ≢ decimal n) }
{
    match text.parse::<u64>() {
        Ok(number) if Buffer::new().format(number) == text => Some(number),
        _ => None,
    }
}
