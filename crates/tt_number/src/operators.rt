ghost use Rattle.std.specs.Prelude.{◌≡◌, ◌≤◌, ◌<◌, ◌^◌, pos, negsuc, FitsSigned, ◌*ℤ◌, ◌<ℤ◌, ◌≤ℤ◌};
ghost use Rattle.std.specs.Int.{w64, int_pow};
ghost use Rattle.std.specs.Int.RustNames.{unsigned_abs};
ghost use Rattle.tt_number.specs.Operators.{number_that_fits, quotient_down, remainder_down, power, inverse_power};
ghost use Rattle.tt_number.specs.Operators.{shifted_left, shifted_right, binary_of, unary_of, unless_zero};

use thiserror::Error;

/// Why an operator has no answer, by expr(n).
#[derive(Clone, Copy, Debug, PartialEq, Eq, Error)]
pub enum ArithFault {
    /// The result does not lie in signed 64 bits.
    #[error("result of more than 64 bits")]
    Overflow,
    /// The divisor is 0.
    #[error("division by zero")]
    DivideByZero,
    /// A shift by less than 0 places.
    #[error("shift by less than 0 places")]
    NegativeShift,
    /// 0 to a negative power.
    #[error("negative power of zero")]
    ZeroPower,
}

/// The operators on two numbers, of expr(n): `+ - * / % ** << >> & | ^`.
#[derive(Clone, Copy, Debug, PartialEq, Eq)]
pub enum NumOp {
    Add,
    Sub,
    Mul,
    Div,
    Mod,
    Pow,
    Shl,
    Shr,
    BitAnd,
    BitOr,
    BitXor,
}

/// The operators on one number, of expr(n): `- + ~`, and the function `abs` of mathfunc(n).
#[derive(Clone, Copy, Debug, PartialEq, Eq)]
pub enum OneOp {
    Neg,
    Plus,
    BitNot,
    Abs,
}

/// What the operator answers on two numbers, by expr(n).
///
/// `/` rounds down and the remainder of `%` has the divisor's sign. A shift multiplies or divides,
/// rounding down, by a power of two. A negative exponent of `**` answers 0 but at the bases 1 and -1.
///
/// - `Overflow` if the result does not lie in signed 64 bits.
/// - `DivideByZero` if `/` or `%` has the divisor 0.
/// - `NegativeShift` if a shift has less than 0 places.
/// - `ZeroPower` if `**` has the base 0 and a negative exponent.
#[tactic(auto, unfolding(crate::specs::Operators::binary_of))]
pub fn binary(op: NumOp, a: i64, b: i64) -> Result<i64, ArithFault>
    ensures answer { result ≡ binary_of op a b }
{
    match op {
        NumOp::Add => fitted(i128::from(a) + i128::from(b)),
        NumOp::Sub => fitted(i128::from(a) - i128::from(b)),
        NumOp::Mul => fitted(i128::from(a) * i128::from(b)),
        NumOp::Div => divided(a, b),
        NumOp::Mod => remainder(a, b),
        NumOp::Pow => power(a, b),
        NumOp::Shl => shifted_left(a, b),
        NumOp::Shr => shifted_right(a, b),
        NumOp::BitAnd => Ok(a & b),
        NumOp::BitOr => Ok(a | b),
        NumOp::BitXor => Ok(a ^ b),
    }
}

/// What the operator answers on one number, by expr(n).
///
/// `Overflow` if the result does not lie in signed 64 bits: `-` and `abs` of the least number.
#[tactic(auto, unfolding(crate::specs::Operators::unary_of))]
pub fn unary(op: OneOp, a: i64) -> Result<i64, ArithFault>
    ensures answer { result ≡ unary_of op a }
{
    match op {
        OneOp::Neg => fitted(-i128::from(a)),
        OneOp::Plus => Ok(a),
        OneOp::BitNot => Ok(!a),
        OneOp::Abs => fitted(i128::from(a.unsigned_abs())),
    }
}

fn fitted(n: i128) -> Result<i64, ArithFault>
    ensures { result ≡ number_that_fits n }
{
    i64::try_from(n).map_err(|_| ArithFault::Overflow)
}

fn divided(a: i64, divisor: i64) -> Result<i64, ArithFault>
    ensures { result ≡ unless_zero divisor (number_that_fits (quotient_down a divisor)) }
{
    if divisor == 0 {
        return Err(ArithFault::DivideByZero);
    }
    fitted(quotient_down(i128::from(a), i128::from(divisor)))
}

fn quotient_down(a: i128, divisor: i128) -> i128
    requires dividend { FitsSigned w64 a }
    requires nonzero { 0 < unsigned_abs divisor }
    requires fits { FitsSigned w64 divisor }
    ensures { result ≡ quotient_down a divisor }
{
    if divisor > 0 {
        a.div_euclid(divisor)
    } else {
        (-a).div_euclid(-divisor)
    }
}

fn remainder(a: i64, divisor: i64) -> Result<i64, ArithFault>
    ensures { result ≡ unless_zero divisor (number_that_fits (remainder_down a divisor)) }
{
    if divisor == 0 {
        return Err(ArithFault::DivideByZero);
    }
    fitted(remainder_down(i128::from(a), i128::from(divisor)))
}

fn remainder_down(a: i128, divisor: i128) -> i128
    requires dividend { FitsSigned w64 a }
    requires nonzero { 0 < unsigned_abs divisor }
    requires fits { FitsSigned w64 divisor }
    ensures { result ≡ remainder_down a divisor }
{
    if divisor > 0 {
        a.rem_euclid(divisor)
    } else {
        -(-a).rem_euclid(-divisor)
    }
}

fn power(base: i64, exponent: i64) -> Result<i64, ArithFault>
    ensures { result ≡ power base exponent }
{
    match u64::try_from(exponent) {
        Ok(exponent) => raised(base, exponent),
        Err(_) => inverse_power(base, exponent.unsigned_abs()),
    }
}

#[tactic(auto, using(crate::proofs::Powers::long_power, crate::proofs::Powers::idle_power, crate::proofs::Powers::even_power, crate::proofs::Powers::odd_power))]
// A base of two or more passes 64 bits at an exponent of 64, so a huge one takes no long work.
fn raised(base: i64, exponent: u64) -> Result<i64, ArithFault>
    ensures { result ≡ number_that_fits (int_pow base exponent) }
{
    if exponent < 64 {
        return base
            .checked_pow(exponent as u32)
            .ok_or(ArithFault::Overflow);
    }
    if base.unsigned_abs() > 1 {
        Err(ArithFault::Overflow)
    } else if base >= 0 {
        Ok(base)
    } else if exponent % 2 == 0 {
        Ok(1)
    } else {
        Ok(-1)
    }
}

fn inverse_power(base: i64, exponent: u64) -> Result<i64, ArithFault>
    ensures { result ≡ inverse_power base exponent }
{
    match base {
        0 => Err(ArithFault::ZeroPower),
        1 | -1 => raised(base, exponent),
        _ => Ok(0),
    }
}

#[tactic(auto, using(crate::proofs::Powers::long_shift))]
fn shifted_left(a: i64, places: i64) -> Result<i64, ArithFault>
    ensures { result ≡ shifted_left a places }
{
    match u64::try_from(places) {
        Ok(_) if a == 0 => Ok(0),
        Ok(places) if places < 64 => fitted(i128::from(a) * power_of_two(places)),
        Ok(_) => Err(ArithFault::Overflow),
        Err(_) => Err(ArithFault::NegativeShift),
    }
}

fn power_of_two(places: u64) -> i128
    requires { places < 64 }
    ensures value { result ≡ pos (2 ^ places) }
    ensures fits { unsigned_abs result ≤ 2 ^ 63 }
{
    1 << places
}

#[tactic(auto, using(crate::proofs::Powers::far_shift))]
fn shifted_right(a: i64, places: i64) -> Result<i64, ArithFault>
    ensures { result ≡ shifted_right a places }
{
    match u64::try_from(places) {
        Ok(places) => Ok(a >> places.min(63)),
        Err(_) => Err(ArithFault::NegativeShift),
    }
}
