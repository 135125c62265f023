// What an operator gives.
ghost use Rattle.std.specs.Prelude.{◌≡◌, ◌<◌, ◌≤◌, ◌^◌, ℤ, pos, neg_ℤ, ◌≢◌, Ok, unsigned_abs};
ghost use Rattle.std.specs.Int.{is_negative};
ghost use Rattle.std.specs.Int.RustNames.{FitsSigned};
ghost use Rattle.tclv_exprp.specs.Operators as spec;

use crate::operators::{Op1, Op2, OpFault};

#[tactic(auto, unfolding(crate::specs::Operators::fit), using(crate::proofs::IntegerLemmas::fit_of))]
fn positive(size: u64) -> Result<i64, OpFault>
    ensures { result ≡ spec.fit (pos size) }
{
    0i64.checked_add_unsigned(size).ok_or(OpFault::TooLarge)
}

#[tactic(auto, unfolding(crate::specs::Operators::fit), using(crate::proofs::IntegerLemmas::fit_of))]
fn negative(size: u64) -> Result<i64, OpFault>
    ensures { result ≡ spec.fit (neg_ℤ (pos size)) }
{
    0i64.checked_sub_unsigned(size).ok_or(OpFault::TooLarge)
}

fn sized(below: bool, size: u64) -> Result<i64, OpFault>
    ensures { result ≡ spec.fit (spec.sized below size) }
{
    if below {
        negative(size)
    } else {
        positive(size)
    }
}

fn add(a: i64, b: i64) -> Result<i64, OpFault>
    ensures { result ≡ spec.add a b }
{
    a.checked_add(b).ok_or(OpFault::TooLarge)
}

fn subtract(a: i64, b: i64) -> Result<i64, OpFault>
    ensures { result ≡ spec.subtract a b }
{
    a.checked_sub(b).ok_or(OpFault::TooLarge)
}

fn times(a: i64, b: i64) -> Result<i64, OpFault>
    ensures { result ≡ spec.times a b }
{
    a.checked_mul(b).ok_or(OpFault::TooLarge)
}

fn divide(a: i64, b: i64) -> Result<i64, OpFault>
    ensures { result ≡ spec.divide a b }
{
    let x = a.unsigned_abs();
    let y = b.unsigned_abs();
    if y == 0 {
        return Err(OpFault::DivideByZero);
    }
    if (a < 0) == (b < 0) {
        positive(x / y)
    } else {
        negative(x.div_ceil(y))
    }
}

/// What is left of the sizes, as a number on the divisor's side of 0.
fn rest(same: bool, r: u64, y: u64) -> u64
    requires { r < y }
    ensures { result ≡ spec.rest same r y }
{
    if same || r == 0 { r } else { y - r }
}

fn remainder(a: i64, b: i64) -> Result<i64, OpFault>
    ensures { result ≡ spec.remainder a b }
{
    let y = b.unsigned_abs();
    if y == 0 {
        return Err(OpFault::DivideByZero);
    }
    sized(b < 0, rest((a < 0) == (b < 0), a.unsigned_abs() % y, y))
}

/// A power of -1.
fn sign_power(n: u64) -> i64
    ensures { result ≡ spec.sign_power n }
{
    if n % 2 == 0 { 1 } else { -1 }
}

/// A power whose exponent is 0 or more.
fn power_up(a: i64, n: u64) -> Result<i64, OpFault>
    ensures { result ≡ spec.power_up a n }
{
    if n < 64 {
        return a.checked_pow(n as u32).ok_or(OpFault::TooLarge);
    }
    if a == 0 {
        return Ok(0);
    }
    if a == 1 {
        return Ok(1);
    }
    if a == -1 {
        return Ok(sign_power(n));
    }
    Err(OpFault::TooLarge)
}

/// A power whose exponent is -n.
fn power_down(a: i64, n: u64) -> Result<i64, OpFault>
    ensures { result ≡ spec.power_down a n }
{
    if a == 0 {
        return Err(OpFault::ZeroPower);
    }
    if a == 1 {
        return Ok(1);
    }
    if a == -1 {
        return Ok(sign_power(n));
    }
    Ok(0)
}

fn power(a: i64, b: i64) -> Result<i64, OpFault>
    ensures { result ≡ spec.power a b }
{
    let n = b.unsigned_abs();
    if b < 0 {
        power_down(a, n)
    } else {
        power_up(a, n)
    }
}

fn two_to(n: u64) -> u64
    requires { n < 64 }
    ensures { result ≡ 2 ^ n }
{
    1u64 << n
}

fn shift_left_by(a: i64, n: u64) -> Result<i64, OpFault>
    ensures { result ≡ spec.shift_left_by a n }
{
    if n > 63 {
        return if a == 0 {
            Ok(0)
        } else {
            Err(OpFault::TooLarge)
        };
    }
    match a.unsigned_abs().checked_mul(two_to(n)) {
        Some(size) => sized(a < 0, size),
        None => Err(OpFault::TooLarge),
    }
}

fn shift_left(a: i64, b: i64) -> Result<i64, OpFault>
    ensures { result ≡ spec.shift_left a b }
{
    let n = b.unsigned_abs();
    if b < 0 {
        Err(OpFault::NegativeShift)
    } else {
        shift_left_by(a, n)
    }
}

fn shift_right_by(a: i64, n: u64) -> i64
    ensures { result ≡ spec.shift_right_by a n }
{
    if n > 63 {
        return if a < 0 { -1 } else { 0 };
    }
    a >> n
}

fn shift_right(a: i64, b: i64) -> Result<i64, OpFault>
    ensures { result ≡ spec.shift_right a b }
{
    let n = b.unsigned_abs();
    if b < 0 {
        Err(OpFault::NegativeShift)
    } else {
        Ok(shift_right_by(a, n))
    }
}

fn truth(b: bool) -> i64
    ensures { result ≡ spec.truth b }
{
    if b { 1 } else { 0 }
}

/// What an operator gives of a number. `TooLarge` comes exactly where the result is outside
/// -2^63..2^63-1. (expr(n))
pub fn apply1(op: Op1, a: i64) -> Result<i64, OpFault>
    ensures { result ≡ spec.apply1 op a }
{
    match op {
        Op1::Minus => a.checked_neg().ok_or(OpFault::TooLarge),
        Op1::Plus => Ok(a),
        Op1::Invert => Ok(!a),
        Op1::Not => Ok(truth(a == 0)),
    }
}

/// What an operator gives of two numbers, from left to right.
///
/// `DivideByZero` comes exactly for `/` and `%` by 0, `ZeroPower` for a negative power of 0,
/// `NegativeShift` for a shift by less than 0 places, and `TooLarge` where the result is outside
/// -2^63..2^63-1. (expr(n))
pub fn apply2(op: Op2, a: i64, b: i64) -> Result<i64, OpFault>
    ensures { result ≡ spec.apply2 op a b }
{
    match op {
        Op2::Power => power(a, b),
        Op2::Times => times(a, b),
        Op2::Divide => divide(a, b),
        Op2::Remainder => remainder(a, b),
        Op2::Add => add(a, b),
        Op2::Subtract => subtract(a, b),
        Op2::ShiftLeft => shift_left(a, b),
        Op2::ShiftRight => shift_right(a, b),
        Op2::BitAnd => Ok(a & b),
        Op2::BitXor => Ok(a ^ b),
        Op2::BitOr => Ok(a | b),
        Op2::Equal => Ok(truth(a == b)),
        Op2::NotEqual => Ok(truth(a != b)),
        Op2::Less => Ok(truth(a < b)),
        Op2::Greater => Ok(truth(a > b)),
        Op2::LessEqual => Ok(truth(a <= b)),
        Op2::GreaterEqual => Ok(truth(a >= b)),
    }
}
