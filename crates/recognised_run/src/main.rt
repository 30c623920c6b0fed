// Judges the byte strings on standard input, each after its length in four bytes: 0, or the number of its refusal.
#![tactic(auto)]

ghost use Rattle.std.specs.Prelude.{◌<◌, ◌≤◌, length, IfOk};

use std::io;
use std::io::Read;

// Judges the string at a place, and answers where the next one starts, the end if there is none.
fn next(rt: &impl Print, bytes: &[u8], at: usize) -> io::Result<usize>
    requires { at < length bytes.now }
    ensures { IfOk result (λ next. (at < next) × (next ≤ length bytes.now)) }
{
    let n = bytes.len();
    if n < 4 || n - 4 < at {
        return Ok(n);
    }
    let long = rows::number(bytes, at);
    let from = at + 4;
    if n - from < long {
        return Ok(n);
    }
    let to = from + long;
    let refusal = match recognised::recognise(&bytes[from..to]) {
        Ok(()) => 0,
        Err(f) => f.number(),
    };
    println!(rt; "{refusal}")?;
    Ok(to)
}

// Judges all of them.
fn all(rt: &impl Print, bytes: &[u8]) -> io::Result<()> {
    let mut at: usize = 0;
    while at < bytes.len() {
        at = next(rt, bytes, at)?;
    }
    Ok(())
}

// Reads until buf is full, the input ends or a read fails; how many bytes came.
fn read_full(input: &mut impl Read, buf: &mut [u8]) -> usize
    ensures { result ≤ length buf.new }
{
    let mut done: usize = 0;
    while done < buf.len() {
        let n = input.read(&mut buf[done..]).unwrap_or(0);
        if n == 0 {
            return done;
        }
        done += n;
    }
    done
}

fn main(rt: HostRuntime) -> io::Result<()> {
    let mut bytes = [0u8; 262144];
    let n = read_full(&mut rt.reader(), &mut bytes);
    all(&rt, &bytes[..n])
}
