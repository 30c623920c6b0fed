// Answers, gathered in a buffer that the caller lends, of any length; `Output` owns one, whose length its type fixes. Each function
// takes the place after what is gathered, and answers the next such place, or the error of a write that failed, and of nothing
// else: then some bytes of the buffer may be others, and it is as long as it was.
ghost use Rattle.std.specs.Prelude.{◌≡◌, ◌≤◌, ◌∷◌, IfOk, decimal, length, take};
ghost use Rattle.text.specs.Output.{and_byte, and_bytes, hex_of};

use crate::output::glyph;
use std::io;

// Writes what is gathered before `at`; nothing is gathered then.
pub fn flush(rt: &impl Print, out: &[u8], at: usize) -> io::Result<usize>
    ensures { IfOk result (λ n. n ≡ 0) }
{
    if at <= out.len() {
        rt.write_all(&out[..at])?;
    }
    Ok(0)
}

// One more byte.
fn put_byte(rt: &impl Print, out: &mut [u8], at: usize, b: u8) -> io::Result<usize>
    ensures size { length out.new ≡ length out.old }
    ensures place { IfOk result (λ n. n ≤ length out.new) }
    ensures gathered { IfOk result (λ n. take n out.new ≡ and_byte (length out.old) (take at out.old) b) }
{
    let mut next = at;
    if out.len() <= at {
        next = flush(rt, out, at)?;
    }
    if next < out.len() {
        out[next] = b;
        next += 1;
    }
    Ok(next)
}

// A text.
pub fn put(rt: &impl Print, out: &mut [u8], at: usize, text: &[u8]) -> io::Result<usize>
    ensures size { length out.new ≡ length out.old }
    ensures place { IfOk result (λ n. at ≤ length out.old → n ≤ length out.new) }
    ensures gathered { IfOk result (λ n. take n out.new ≡ and_bytes (length out.old) (take at out.old) text.now) }
{
    let mut next = at;
    for b in text {
        next = put_byte(rt, out, next, *b)?;
    }
    Ok(next)
}

// A number in decimal.
pub fn put_decimal(rt: &impl Print, out: &mut [u8], at: usize, n: u64) -> io::Result<usize>
    ensures size { length out.new ≡ length out.old }
    ensures place { IfOk result (λ k. at ≤ length out.old → k ≤ length out.new) }
    ensures gathered { IfOk result (λ k. take k out.new ≡ and_bytes (length out.old) (take at out.old) (decimal n)) }
{
    put(rt, out, at, itoa::Buffer::new().format(n).as_bytes())
}

// A space and a number.
pub fn put_item(rt: &impl Print, out: &mut [u8], at: usize, n: u64) -> io::Result<usize>
    ensures size { length out.new ≡ length out.old }
    ensures place { IfOk result (λ k. at ≤ length out.old → k ≤ length out.new) }
    ensures gathered { IfOk result (λ k. take k out.new ≡ and_bytes (length out.old) (take at out.old) (32 ∷ decimal n)) }
{
    let next = put_byte(rt, out, at, b' ')?;
    put_decimal(rt, out, next, n)
}

// Bytes in lowercase hex.
pub fn put_hex(rt: &impl Print, out: &mut [u8], at: usize, bytes: &[u8]) -> io::Result<usize>
    ensures size { length out.new ≡ length out.old }
    ensures place { IfOk result (λ n. at ≤ length out.old → n ≤ length out.new) }
    ensures gathered { IfOk result (λ n. take n out.new ≡ and_bytes (length out.old) (take at out.old) (hex_of bytes.now)) }
{
    let mut next = at;
    for b in bytes {
        next = put_byte(rt, out, next, glyph(b / 16))?;
        next = put_byte(rt, out, next, glyph(b % 16))?;
    }
    Ok(next)
}
