// The trace program of document 01: reads one trace from standard input and writes the text that `listing` makes of the first word of its
// command and of what it read. What the text is, for every word and every input, is the contract of `listing::put_listing`; that all of it is
// written, and nothing else, that of `write_listing`. No contract can say what standard input gives and standard output takes.
#![tactic(auto)]

ghost use Rattle.std.specs.Prelude.{◌≤◌, ◌≡◌, length, take, OnOk};
ghost use Rattle.std.specs.Io.KnownBytes.{Appends};
ghost use Rattle.listing.specs.Printed.{listing_of};

use std::env::{Env, FillError};
use std::io::{self, Read, Write};

// The bytes of the command's word that are looked at: no scheme has a name of as many.
const WORD: usize = 16;

// The bytes that are read at most, more than the largest trace's 46,096, and those that are written at a time.
const BYTES: usize = 65536;

// Puts the command's word at the start of a buffer and answers its length, 0 where there is none. One that is too long for the buffer fills
// it, so that it is not taken for none.
fn take_word(rt: &impl Env, word: &mut [u8; WORD]) -> usize
    ensures in_bounds { result ≤ length word.new }
    ensures is_prefix { result ≡ length (take result word.new) }
{
    match rt.arg(1, word) {
        Ok(n) => n,
        Err(FillError::TooLong) => WORD,
        Err(FillError::NotPresent) => 0,
    }
}

// Reads until the buffer is full, the input ends or a read fails, and answers how many bytes it put at the start of the buffer. It goes on by what
// a read gives, so that no `for` knows its turns.
fn read_full(input: &mut impl Read, bytes: &mut [u8]) -> usize
    ensures in_bounds { result ≤ length bytes.new }
    ensures is_prefix { result ≡ length (take result bytes.new) }
{
    let mut done = 0;
    while done < bytes.len() {
        match input.read(&mut bytes[done..]) {
            Ok(0) | Err(_) => break,
            Ok(n) => done += n,
        }
    }
    done
}

// Writes the text, a buffer of it at a time; stops where a write fails, or with the part that ends the text, whose length each part tells.
fn write_listing<W: Write>(output: &mut W, word: &[u8], bytes: &[u8]) -> io::Result<()>
    ensures { OnOk result (Appends (W.contents output.old) (W.contents output.new) (listing_of word.now bytes.now)) }
{
    let mut text = [0; BYTES];
    let mut from = 0;
    loop {
        let left = listing::put_listing(word, bytes, from, &mut text) - from;
        if left <= BYTES {
            return output.write_all(&text[..left]);
        }
        output.write_all(&text)?;
        from += BYTES;
    }
}

// Reads until the end of the input or until the buffer is full: one that fills it is bad.
fn main(rt: HostRuntime) {
    let mut word = [0; WORD];
    let w = take_word(&rt, &mut word);
    let mut bytes = [0; BYTES];
    let n = read_full(&mut rt.stdin(), &mut bytes);
    let _written = write_listing(&mut rt.stdout(), &word[..w], &bytes[..n]);
}
