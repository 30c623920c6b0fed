// The words of a line, separated by single spaces; decimal numbers below 2^64; bytes in lowercase hex.
ghost use Rattle.std.specs.Prelude.{◌≡◌, ◌+◌, ◌*◌, ◌%◌, ◌<◌, ◌≤◌, IfSome, is_some, length, nat_lt, unwrap_or};
ghost use Rattle.std.proofs.Math.Seq.{paste};
ghost use Rattle.std.proofs.lemmas.List.Edits.{sets};
ghost use Rattle.text.specs.Numbers.{longer_of, read_from, number_of, leading, count_from};
ghost use Rattle.text.specs.Hex.{nibble_of, all_hex, is_hex, bytes_in, bytes_of};
ghost use Rattle.text.specs.Words.{word_end, words_after};

use crate::scan;

const SPACE: u8 = b' ';

const ZERO: u8 = b'0';

const NINE: u8 = b'9';

// Where the word that starts at `from` ends: at the next space, or at the line's end.
pub fn word_end(line: &[u8], from: usize) -> usize
    requires { from ≤ length line.now }
    ensures value { result ≡ word_end line.now from }
    ensures lower_bound { (from ≤ result) × (result ≤ length line.now) }
{
    scan::find(line, from, line.len(), SPACE).unwrap_or(line.len())
}

// The number v with the digit b after it, if that is one below 2^64.
fn longer(v: u64, b: u8) -> Option<u64>
    ensures { result ≡ longer_of v b }
{
    match b {
        ZERO..=NINE => v.checked_mul(10)?.checked_add(u64::from(b - ZERO)),
        _ => None,
    }
}

// The number that digits say, first digit first.
fn digits(word: &[u8]) -> Option<u64>
    ensures { result ≡ read_from word.now 0 }
{
    let mut v: u64 = 0;
    for b in word {
        v = longer(v, *b)?;
    }
    Some(v)
}

// The number that a word says: one or more decimal digits, below 2^64.
pub fn read_number(word: &[u8]) -> Option<u64>
    ensures { result ≡ number_of word.now }
{
    if word.is_empty() { None } else { digits(word) }
}

// The value of a hex digit.
fn nibble(b: u8) -> Option<u8>
    ensures value { unwrap_or result 16 ≡ nibble_of b }
    ensures digit { is_some result ≡ nat_lt (nibble_of b) 16 }
{
    match b {
        ZERO..=NINE => Some(b - ZERO),
        b'a'..=b'f' => Some(b - b'a' + 10),
        _ => None,
    }
}

// Whether every byte is a hex digit.
fn all_hex(word: &[u8]) -> bool
    ensures { result ≡ all_hex word.now }
{
    word.iter().all(|b| nibble(*b).is_some())
}

// Whether a word is hex: an even number of digits, and some.
fn is_hex(word: &[u8]) -> bool
    ensures { result ≡ is_hex word.now }
{
    !word.is_empty() && word.len() % 2 == 0 && all_hex(word)
}

// The byte that two digits say.
fn byte_of(high: u8, low: u8) -> u8
    ensures { result ≡ 16 * (nibble_of high % 16) + nibble_of low % 16 }
{
    16 * nibble(high).unwrap_or(0) + nibble(low).unwrap_or(0)
}

// Puts the bytes that the first 2n digits say at the start of out.
fn unhex(word: &[u8], n: usize, out: &mut [u8])
    requires { (2 * n ≤ length word.now) × (n ≤ length out.old) }
    ensures { out.new ≡ paste out.old 0 (bytes_in word.now) n }
{
    // by places: over `out.iter_mut().zip(word.chunks_exact(2))` the proof does not close, since the loop's invariant cannot name out
    for j in 0..n {
        out[j] = byte_of(word[2 * j], word[2 * j + 1]);
    }
}

// The bytes that a word of lowercase hex says, put at the start of out, and how many these are. If it is no hex, or there is no
// room, none, and out stays.
pub fn read_bytes(word: &[u8], out: &mut [u8]) -> Option<usize>
    ensures value { result ≡ bytes_of word.now (length out.old) }
    ensures out_after { out.new ≡ paste out.old 0 (bytes_in word.now) (unwrap_or result 0) }
    ensures count_in_bounds { IfSome result (λ n. n ≤ length out.new) }
{
    let n = word.len() / 2;
    if !is_hex(word) || out.len() < n {
        return None;
    }
    unhex(word, n, out);
    Some(n)
}

// The numbers that the words after `from`, a space or the line's end, say, up to the first word that says none: put into out,
// as many as it takes. How many there are, if every word says one.
pub fn read_numbers(line: &[u8], from: usize, out: &mut [u64]) -> Option<usize>
    ensures value { result ≡ count_from 0 (words_after line.now from) }
    ensures out_after { out.new ≡ sets out.old 0 (leading (words_after line.now from)) }
{
    let mut count: usize = 0;
    if from < line.len() {
        for word in line[from + 1..].split(|b| *b == SPACE) {
            let n = read_number(word)?;
            if count < out.len() {
                out[count] = n;
            }
            count += 1;
        }
    }
    Some(count)
}
