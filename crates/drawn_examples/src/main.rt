// Runs examples 10 and 11 of document 01, and writes what the unit answers.

#![tactic(auto)]

use event::{Kind, Shown};
use std::io;

fn main(rt: HostRuntime) -> io::Result<()> {
    let table = cords::document_table();
    let mut store = [0; 49152];
    full_store(&rt, &mut store, &table)?;
    empty_bundle(&rt, &mut store, &table)
}

// "256 held: a held event answers repeat, a new one 7."
fn full_store(rt: &impl Print, store: &mut [u8], table: &[u8]) -> io::Result<()> {
    let mut count = takes::start(store, table, &[0; 192]).count;
    for port in 0..255 {
        count = takes::take(store, count, table, &unplug(port)).count;
    }
    println!(rt; "10: held {count}")?;
    let held = takes::take(store, count, table, &unplug(200));
    println!(rt; "10: a held event: {}", Shown(held.answer))?;
    let new = takes::take(store, count, table, &unplug(255));
    println!(rt; "10: a new event: {}", Shown(new.answer))
}

// "A bundle of count 0 is 12 bytes and offers nothing."
fn empty_bundle(rt: &impl Print, store: &mut [u8], table: &[u8]) -> io::Result<()> {
    let count = takes::start(store, table, &[0; 192]).count;
    let taken = takes::take_bundle(store, count, table, b"\0\0\0\0\0\0\0\0BACK");
    println!(rt; "11: a bundle of count 0: figures {}", Shown(taken.answer))?;
    println!(rt; "11: held {}", taken.count)
}

// An unplug of a port, whose one parent nobody holds.
fn unplug(port: u16) -> [u8; 192] {
    let mut e = [0u8; 192];
    e[0] = u8::from(Kind::Unplug);
    e[2] = 1;
    octets::paste(&mut e, 8, &port.to_be_bytes());
    e[96] = 7;
    e
}
