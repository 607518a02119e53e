//! Reads calls of `idl_bits`, one a line, and prints each line with its answer.
//!
//! A line is the name of a call and its operands in the call's order. A value is its width, `s` or
//! `u` for its sign, and its pattern; other operands are numbers; all numbers are decimal. An answer
//! is a value in the same form, or `true` or `false`. A line that is no call, or that the call's
//! contract bars, is answered by `none`.
#![tactic(auto)]

use idl_bits::{
    Bits, add, and, as_signed, as_unsigned, bit, div, eq, join, lt, mul, neg, not, or, put_bit,
    put_slice, rem, repeat, resize, sar, shl, shr, slice, sub, wide_add, wide_mul, wide_shl,
    wide_sub, xor,
};
use std::alloc::{AllocError, Global};
use std::io;

/// A value by its width, its sign and its pattern, or whether a comparison holds.
#[derive(Clone, Copy)]
enum Answer {
    Value(u8, bool, u128),
    Truth(bool),
}

fn parts_of(value: Bits) -> Answer {
    Answer::Value(value.width(), value.signed(), value.pattern())
}

fn number(word: &str) -> Option<u8> {
    match word.parse::<u8>() {
        Ok(number) => Some(number),
        Err(_) => None,
    }
}

fn pattern(word: &str) -> Option<u128> {
    match word.parse::<u128>() {
        Ok(number) => Some(number),
        Err(_) => None,
    }
}

fn sign(word: &str) -> Option<bool> {
    match word {
        "s" => Some(true),
        "u" => Some(false),
        _ => None,
    }
}

// The value of 1 to 128 bits whose pattern has no others.
fn of_parts(width: u8, signed: bool, pattern: u128) -> Option<Bits> {
    if width < 1 || width > 128 {
        return None;
    }
    let value = resize(Bits::new(128, signed, pattern), width);
    if value.pattern() == pattern {
        Some(value)
    } else {
        None
    }
}

fn value(words: [&str; 3]) -> Option<Bits> {
    let [width, signed, bits] = words;
    of_parts(number(width)?, sign(signed)?, pattern(bits)?)
}

fn of_one(name: &str, a: Bits) -> Option<Bits> {
    match name {
        "neg" => Some(neg(a)),
        "not" => Some(not(a)),
        "as_signed" => Some(as_signed(a)),
        "as_unsigned" => Some(as_unsigned(a)),
        _ => None,
    }
}

fn of_one_and_number(name: &str, a: Bits, n: u8) -> Option<Bits> {
    match name {
        "resize" if 1 <= n && n <= 128 => Some(resize(a, n)),
        "wide_shl" if n <= 128 - a.width() => Some(wide_shl(a, n)),
        "repeat" if 1 <= n && n <= 128 / a.width() => Some(repeat(a, n)),
        _ => None,
    }
}

fn of_two(name: &str, a: Bits, b: Bits) -> Option<Bits> {
    match name {
        "add" => Some(add(a, b)),
        "sub" => Some(sub(a, b)),
        "mul" => Some(mul(a, b)),
        "div" => Some(div(a, b)),
        "rem" => Some(rem(a, b)),
        "and" => Some(and(a, b)),
        "or" => Some(or(a, b)),
        "xor" => Some(xor(a, b)),
        "shl" => Some(shl(a, b)),
        "shr" => Some(shr(a, b)),
        "sar" => Some(sar(a, b)),
        "bit" => Some(bit(a, b)),
        _ => of_two_wide(name, a, b),
    }
}

fn of_two_wide(name: &str, a: Bits, b: Bits) -> Option<Bits> {
    match name {
        "wide_add" if a.width() < 128 && b.width() < 128 => Some(wide_add(a, b)),
        "wide_sub" if a.width() < 128 && b.width() < 128 => Some(wide_sub(a, b)),
        "wide_mul" if a.width() <= 128 - b.width() => Some(wide_mul(a, b)),
        "join" if a.width() <= 128 - b.width() => Some(join(a, b)),
        _ => None,
    }
}

fn between(name: &str, a: Bits, b: Bits) -> Option<Answer> {
    match name {
        "eq" => Some(Answer::Truth(eq(a, b))),
        "lt" => Some(Answer::Truth(lt(a, b))),
        _ => Some(parts_of(of_two(name, a, b)?)),
    }
}

fn slice_of(a: Bits, high: u8, low: u8) -> Option<Bits> {
    if low <= high && high < a.width() {
        Some(slice(a, high, low))
    } else {
        None
    }
}

fn slice_put(a: Bits, high: u8, low: u8, part: Bits) -> Option<Bits> {
    if low <= high && high < a.width() {
        Some(put_slice(a, high, low, part))
    } else {
        None
    }
}

fn answer_to(words: &[&str]) -> Option<Answer> {
    match *words {
        [name, w, s, p] => Some(parts_of(of_one(name, value([w, s, p])?)?)),
        [name, w, s, p, n] => {
            let a = value([w, s, p])?;
            Some(parts_of(of_one_and_number(name, a, number(n)?)?))
        }
        ["slice", w, s, p, high, low] => {
            let a = value([w, s, p])?;
            Some(parts_of(slice_of(a, number(high)?, number(low)?)?))
        }
        [name, w, s, p, v, t, q] => between(name, value([w, s, p])?, value([v, t, q])?),
        ["put_slice", w, s, p, high, low, v, t, q] => {
            let a = value([w, s, p])?;
            let part = value([v, t, q])?;
            Some(parts_of(slice_put(a, number(high)?, number(low)?, part)?))
        }
        ["put_bit", w, s, p, x, r, i, v, t, q] => {
            let a = value([w, s, p])?;
            let at = value([x, r, i])?;
            Some(parts_of(put_bit(a, at, value([v, t, q])?)))
        }
        _ => None,
    }
}

fn text_of(alloc: Global, answer: Option<Answer>) -> Result<String, AllocError> {
    match answer {
        None => "none".to_string(alloc),
        Some(Answer::Truth(truth)) => format!(in alloc; "{truth}"),
        Some(Answer::Value(width, signed, pattern)) => {
            let sign = if signed { 's' } else { 'u' };
            format!(in alloc; "{width} {sign} {pattern}")
        }
    }
}

fn main(rt: HostRuntime) -> io::Result<()> {
    for line in rt.lines(rt.alloc()) {
        let line = line?;
        let words: Vec<&str> = line.as_str().split_whitespace().collect(rt.alloc())?;
        let told = text_of(rt.alloc(), answer_to(&words))?;
        println!(rt; "{line} = {told}")?;
    }
    Ok(())
}
