// Makes every call of the unit on the room of document 01's examples 5 and 6, and writes what it answers. It reads nothing and takes
// few steps, so that `rt try` runs it on the interpreter too.

#![tactic(auto)]

use event::{Kind, Shown};
use std::io;
use unit::{Held, Refusal, Tally};

// Member 1's grant a, member 2's grant b, the join j, the revokes r1 of b and r2 of a; C is the creator by member 0.
fn main(rt: HostRuntime) -> io::Result<()> {
    let c = [0u8; 192];
    let a = grant(0, 1, &c, &c);
    let b = grant(1, 2, &a, &a);
    let j = join(2, &b, &b);
    let r1 = revoke(1, &a, &b, &b);
    let r2 = revoke(0, &c, &a, &j);
    let mut room = Room::new();
    room.start(&c);
    room.take(&a);
    room.take(&b);
    room.take(&j);
    room.take(&r1);
    verdict(&rt, room.held(), &j, "5: j")?;
    room.take(&r2);
    let held = room.held();
    verdict(&rt, held, &r1, "6: r1")?;
    verdict(&rt, held, &j, "6: j")?;
    order_and_map(&rt, held)?;
    look_up(&rt, held, &j)?;
    short_table(&rt, held)?;
    carry_over(&rt, held, &j)
}

// What a unit is lent: its store, how many events are in it, and the cord table.
#[derive(Drop)]
struct Room {
    store: [u8; 49152],
    count: usize,
    table: [u8; 512],
}

impl Room {
    // One that has not started. All bytes are 0: so the compiler makes it at its place, and no other that it would copy.
    fn new() -> Room {
        Room {
            store: [0; 49152],
            count: 0,
            table: [0; 512],
        }
    }

    fn start(&mut self, creator: &[u8]) {
        self.table = unit::document_table();
        self.count = unit::start(&mut self.store, &self.table, creator).count;
    }

    fn take(&mut self, e: &[u8; 192]) {
        self.count = unit::take(&mut self.store, self.count, &self.table, e).count;
    }

    fn take_counted(&mut self, e: &[u8; 192], tally: &mut Tally) {
        self.count = unit::take_counted(&mut self.store, self.count, &self.table, e, tally).count;
    }

    fn take_bundle_counted(&mut self, bundle: &[u8], tally: &mut Tally) -> Result<Tally, Refusal> {
        let taken = unit::take_bundle_counted(
            &mut self.store,
            self.count,
            &self.table,
            bundle,
            tally,
        );
        self.count = taken.count;
        taken.answer
    }

    fn held(&self) -> Held<'_, '_> {
        Held {
            store: &self.store,
            count: self.count,
            table: &self.table,
        }
    }
}

// An event with one parent, by an author under a grant.
fn event(kind: Kind, author: u8, under: &[u8; 192], parent: &[u8; 192]) -> [u8; 192] {
    let mut e = [0u8; 192];
    e[0] = u8::from(kind);
    e[1] = author;
    e[2] = 1;
    octets::paste(&mut e, 32, &sha256::event_id(under));
    octets::paste(&mut e, 96, &sha256::event_id(parent));
    e
}

// All rights for a subject.
fn grant(author: u8, subject: u8, under: &[u8; 192], parent: &[u8; 192]) -> [u8; 192] {
    let mut e = event(Kind::Grant, author, under, parent);
    e[3] = 7;
    e[4] = subject;
    e
}

fn revoke(author: u8, under: &[u8; 192], target: &[u8; 192], parent: &[u8; 192]) -> [u8; 192] {
    let mut e = event(Kind::Revoke, author, under, parent);
    octets::paste(&mut e, 64, &sha256::event_id(target));
    e
}

// A cord of 12 m between ports 3 and 7, kinds 4 and 5.
fn join(author: u8, under: &[u8; 192], parent: &[u8; 192]) -> [u8; 192] {
    let mut e = event(Kind::Join, author, under, parent);
    e[5] = 4;
    e[6] = 5;
    e[9] = 3;
    e[11] = 7;
    e[13] = 12;
    e
}

fn verdict(rt: &impl Print, held: Held, e: &[u8; 192], name: &str) -> io::Result<()> {
    let answer = unit::verdict(held, &sha256::event_id(e)).map(u8::from);
    println!(rt; "{name} {}", Shown(answer))
}

// The number of rows of the order; rows, ended and joins of the map.
fn order_and_map(rt: &impl Print, held: Held) -> io::Result<()> {
    let mut out = [0u8; 216];
    println!(rt; "order {}", Shown(unit::order(held, &mut out)))?;
    println!(rt; "map {}", Shown(unit::map(held, &mut out)))
}

// How many bytes of the store the look-up gives back: an event's.
fn look_up(rt: &impl Print, held: Held, e: &[u8; 192]) -> io::Result<()> {
    let mut number: u8 = 255;
    let part = unit::look_up(held, &sha256::event_id(e), &mut number);
    println!(rt; "look-up {} number {number}", part.len())
}

// A cord table of 511 bytes is refused.
fn short_table(rt: &impl Print, held: Held) -> io::Result<()> {
    let mut out = [0u8; 216];
    let short = Held {
        table: octets::part(held.table, 0, 511),
        ..held
    };
    println!(rt;
        "a table of 511 bytes: {}",
        Shown(unit::order(short, &mut out))
    )
}

// Writes the events out as a bundle, starts a fresh unit with its first event, gives it one event, then the bundle, both with a tally,
// and writes its text.
fn carry_over(rt: &impl Print, held: Held, e: &[u8; 192]) -> io::Result<()> {
    let mut bundle = [0u8; 1164];
    let mut out = [0u8; 57];
    let mut tally = Tally::default();
    println!(rt; "write-out {}", Shown(unit::write_out(held, &mut bundle)))?;
    let mut number = 255;
    let mut fresh = Room::new();
    fresh.start(unit::first_event_part(&bundle, &mut number));
    fresh.take_counted(e, &mut tally);
    let answer = fresh.take_bundle_counted(&bundle, &mut tally);
    println!(rt; "bundle {}", Shown(answer))?;
    println!(rt; "tally {tally}")?;
    println!(rt; "text {}", Shown(unit::text(fresh.held(), &mut out)))?;
    rt.write_all(&out)
}
