// Writes SHA-256 digests, a line for each message: its length, or the number of events in its table, and the digest in
// hexadecimal. tools/vectors.py makes the expected lines by another implementation.

#![tactic(auto)]

ghost use Rattle.std.specs.Prelude.{◌<◌, ◌≤◌, length};

use std::{array, io};

fn main(rt: HostRuntime) -> io::Result<()> {
    standard_examples(&rt)?;
    let text = text();
    lengths(&rt, &text, 0, 3)?;
    lengths(&rt, &text, 54, 66)?;
    lengths(&rt, &text, 118, 130)?;
    lengths(&rt, &text, 190, 194)?;
    lengths(&rt, &text, 255, 258)?;
    for n in 191..194 {
        event(&rt, &text[..n])?;
    }
    let full = events(192);
    tables(&rt, &full, 9)?;
    table(&rt, &full[0..1060], 9)?;
    let short = events(128);
    table(&rt, &short, 9)
}

// The examples that NIST gives with FIPS 180-4.
fn standard_examples(rt: &impl Print) -> io::Result<()> {
    digest(rt, b"")?;
    digest(rt, b"abc")?;
    digest(
        rt,
        b"abcdbcdecdefdefgefghfghighijhijkijkljklmklmnlmnomnopnopq",
    )?;
    digest(
        rt,
        b"abcdefghbcdefghicdefghijdefghijkefghijklfghijklmghijklmnhijklmnoijklmnopjklmnopqklmnopqrlmnopqrsmnopqrstnopqrstu",
    )
}

// The message of which `lengths` takes the first n bytes.
fn text() -> [u8; 258] {
    array::from_fn(|i| ((i * 7 + 3) % 256) as u8)
}

// The digest of the first n bytes of text, for each n from first to last.
fn lengths(rt: &impl Print, text: &[u8], first: usize, last: usize) -> io::Result<()>
    requires { last ≤ length text.now }
{
    for n in first..=last {
        digest(rt, &text[..n])?;
    }
    Ok(())
}

fn digest(rt: &impl Print, message: &[u8]) -> io::Result<()> {
    let digest = sha256::digest(message);
    show(rt, message.len(), &digest)
}

fn event(rt: &impl Print, message: &[u8]) -> io::Result<()> {
    print!(rt; "event ")?;
    let id = sha256::event_id(message);
    show(rt, message.len(), &id)
}

// Nine events, no two the same. From the byte n on each is zeros, but the fifth.
fn events(n: usize) -> [u8; 1728] {
    array::from_fn(|i| event_byte(i, n))
}

fn event_byte(i: usize, n: usize) -> u8
    requires { i < 1728 }
{
    if (i % 192 < n) | (i / 192 == 4) {
        ((i * 7 + i / 192 * 11 + 3) % 256) as u8
    } else {
        0
    }
}

// The tables of the ids of the first n events, for each n from 0 to last.
fn tables(rt: &impl Print, events: &[u8], last: usize) -> io::Result<()>
    requires { last ≤ 9 }
{
    for n in 0..=last {
        table(rt, events, n)?;
    }
    Ok(())
}

// The table of n ids, made at once, and the entry behind them, which stays zero.
fn table(rt: &impl Print, events: &[u8], n: usize) -> io::Result<()>
    requires { n ≤ 9 }
{
    let mut ids = [0u8; 320];
    event_ids::find_ids(events, n, &mut ids);
    for id in ids.chunks(32).take(n + 1) {
        print!(rt; "ids ")?;
        show(rt, n, id)?;
    }
    Ok(())
}

fn show(rt: &impl Print, number: usize, bytes: &[u8]) -> io::Result<()> {
    print!(rt; "{number} ")?;
    for byte in bytes {
        print!(rt; "{byte:02x}")?;
    }
    println!(rt;)
}
