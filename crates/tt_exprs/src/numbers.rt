//! How far a number at the front of a text goes (expr(n), OPERANDS).
ghost use Rattle.std.specs.Prelude.{◌≡◌, ◌≤◌, ◌<◌, ◌+◌, length, IfSome};
ghost use Rattle.tt_exprs.specs.Tokens as tokens;
ghost use Rattle.tt_number.specs.Numerals as numerals;

/// How many digits of this base are at the front.
fn run(base: u32, text: &[u8]) -> usize
    requires least { 2 ≤ base }
    requires most { base ≤ 16 }
    ensures count { result ≡ tokens.digit_count base text.now }
    ensures within { result ≤ length text.now }
{
    let mut n = 0;
    let mut rest = text;
    while let [first, more @ ..] = rest {
        if !char::from(*first).is_digit(base) {
            break;
        }
        n += 1;
        rest = more;
    }
    n
}

/// How many bytes these digits take with what is before them, or 0 if there are none.
fn with_digits(before: usize, digits: usize) -> usize
    requires { before + digits ≤ usize.MAX }
    ensures { result ≡ tokens.with_digits before digits }
{
    if digits == 0 { 0 } else { before + digits }
}

/// How many bytes an exponent takes whose mark is before this text, with the mark, or 0.
fn exponent_digits(text: &[u8]) -> usize
    requires { length text.now < usize.MAX }
    ensures count { result ≡ tokens.exponent_digits text.now }
    ensures within { result ≤ length text.now + 1 }
{
    match text {
        [b'+' | b'-', digits @ ..] => with_digits(2, run(10, digits)),
        digits => with_digits(1, run(10, digits)),
    }
}

/// How many bytes an exponent takes that is at the front, or 0.
fn exponent(text: &[u8]) -> usize
    ensures count { result ≡ tokens.exponent text.now }
    ensures within { result ≤ length text.now }
{
    match text {
        [b'e' | b'E', rest @ ..] => exponent_digits(rest),
        _ => 0,
    }
}

/// How many bytes a point and digits after it take that follow so many digits, or 0.
fn fraction(before: usize, text: &[u8]) -> usize
    requires { before + length text.now ≤ usize.MAX }
    ensures count { result ≡ tokens.fraction before text.now }
    ensures within { result ≤ length text.now }
{
    match text {
        [b'.', rest @ ..] => {
            let digits = run(10, rest);
            if before + digits > 0 { 1 + digits } else { 0 }
        }
        _ => 0,
    }
}

/// How many of these decimal digits write a whole number: after a first 0 the octal ones.
fn decimal(digits: usize, text: &[u8]) -> usize
    requires { digits ≤ length text.now }
    ensures count { result ≡ tokens.decimal digits text.now }
    ensures within { result ≤ length text.now }
{
    match text {
        [b'0', ..] => run(8, text),
        _ => digits,
    }
}

/// How many bytes a number takes that begins with no mark of its base, or 0.
fn unmarked(text: &[u8]) -> usize
    ensures count { result ≡ tokens.unmarked_length text.now }
    ensures within { result ≤ length text.now }
{
    let digits = run(10, text);
    let mantissa = digits + fraction(digits, &text[digits..]);
    if mantissa == 0 {
        return 0;
    }
    let end = mantissa + exponent(&text[mantissa..]);
    if end > digits {
        end
    } else {
        decimal(digits, text)
    }
}

/// The base that a mark after a first 0 names.
fn base_of_mark(mark: u8) -> Option<u32>
    ensures base { result ≡ numerals.base_of_mark mark }
    ensures within { IfSome result (λ base. (2 ≤ base) × (base ≤ 16)) }
{
    match mark {
        b'x' | b'X' => Some(16),
        b'o' | b'O' => Some(8),
        b'b' | b'B' => Some(2),
        _ => None,
    }
}

/// How many bytes a mark of a base and the digits after it take, or 0.
fn marked(text: &[u8]) -> usize
    ensures count { result ≡ tokens.marked_length text.now }
    ensures within { result ≤ length text.now }
{
    let [mark, digits @ ..] = text else {
        return 0;
    };
    match base_of_mark(*mark) {
        Some(base) => with_digits(1, run(base, digits)),
        None => 0,
    }
}

/// How many bytes the longest number at the front takes, or 0 if there is none.
pub(crate) fn number_length(text: &[u8]) -> usize
    ensures count { result ≡ tokens.number_length text.now }
    ensures within { result ≤ length text.now }
{
    if let [b'0', rest @ ..] = text {
        let digits = marked(rest);
        if digits > 0 {
            return 1 + digits;
        }
    }
    unmarked(text)
}
