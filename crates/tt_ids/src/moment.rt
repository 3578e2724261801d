ghost use Rattle.std.specs.Prelude.{◌≡◌, ◌≢◌, ◌++◌, ℕ, List, IfSome, IfNone};
ghost use Rattle.std.specs.Fmt.{decimal};
ghost use Rattle.tt_ids.specs.Digits.{BeginsWithNoDigit};
ghost use Rattle.tt_ids.specs.Moments.{IsMoment};

use crate::number::number_of;
use crate::thread_number::digit_run;

/// The greatest moment, 2^62 milliseconds.
const LAST: u64 = 4_611_686_018_427_387_904;

/// The moment at the front, as schedules write moments: from 1 to 4,611,686,018,427,387,904 (2^62) milliseconds, in
/// decimal without leading zeros. With it comes the text after its digits. `None` exactly if the text begins with no
/// such moment.
pub fn moment_at(text: &[u8]) -> Option<(u64, &[u8])>
    ensures found { IfSome result (λ read.
        IsMoment read.0 × (text.now ≡ decimal read.0 ++ read.1.now) × BeginsWithNoDigit read.1.now) }
    ensures none { IfNone result ((n : ℕ) (rest : List ℕ) →
        IsMoment n → BeginsWithNoDigit rest → text.now ≢ decimal n ++ rest) }
{
    let (digits, rest) = text.split_at(digit_run(text));
    let moment = moment_of(digits)?;
    Some((moment, rest))
}

/// The moment that the text writes without leading zeros, or `None` exactly if it writes none.
fn moment_of(digits: &[u8]) -> Option<u64>
    ensures found { IfSome result (λ moment. IsMoment moment × (digits.now ≡ decimal moment)) }
    ensures none { IfNone result ((n : ℕ) → IsMoment n → digits.now ≢ decimal n) }
{
    let moment = number_of(digits)?;
    if moment == 0 {
        return None;
    }
    if moment > LAST {
        return None;
    }
    Some(moment)
}
