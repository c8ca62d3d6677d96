// What the calls are lent: the areas that the driver owns, and how much of each. A method runs one operation and writes its line.

use crate::lines::{Digest, Figures, Hex};
use crate::script::{Operation, Record, ScriptError, number};
use event::{Refusal, Shown};
use std::fmt::Display;
use std::io;
use store::Held;
use takes::Tally;

const OUTPUT_BYTES: usize = 65536;

// An area, of which calls are lent the front.
// Kept, no plainer: the length stands beside the bytes, since a line hashes the whole store area, also what lies behind the front.
#[derive(Drop)]
struct Area<const N: usize> {
    bytes: [u8; N],
    length: usize,
}

impl<const N: usize> Area<N> {
    fn front(&self) -> &[u8] {
        octets::part(&self.bytes, 0, self.length)
    }

    fn front_mut(&mut self) -> &mut [u8] {
        let end = self.length.min(N);
        &mut self.bytes[..end]
    }
}

// The areas, and what later calls are lent beside them.
#[derive(Drop)]
pub struct Bench {
    store: Area<49408>,
    count: usize,
    table: Area<1024>,
    tally: Tally,
}

impl Bench {
    pub(crate) fn new() -> Bench {
        let mut table = [0; 1024];
        octets::paste(&mut table, 0, &cords::document_table());
        Bench {
            store: Area {
                bytes: [165; 49408],
                length: store::STORE_BYTES,
            },
            count: 0,
            table: Area {
                bytes: table,
                length: cords::TABLE_BYTES,
            },
            tally: Tally::default(),
        }
    }

    // The store, its count and the cord table.
    fn held(&self) -> Held<'_, '_> {
        Held {
            store: self.store.front(),
            count: self.count,
            table: self.table.front(),
        }
    }

    // Runs the operation of a record.
    pub(crate) fn perform(
        &mut self,
        rt: &impl Print,
        record: Record<'_>,
    ) -> Result<(), ScriptError> {
        let payload = record.payload;
        match record.operation {
            Operation::Start => self.start(rt, payload)?,
            Operation::Take => self.take(rt, payload)?,
            Operation::TakeBundle => self.take_bundle(rt, payload)?,
            Operation::LookUp => self.look_up(rt, payload)?,
            Operation::Order => self.report(rt, "order", payload, reports::order)?,
            Operation::Verdict => self.verdict(rt, payload)?,
            Operation::Map => self.report(rt, "map", payload, reports::map)?,
            Operation::WriteOut => self.report(rt, "writeout", payload, reports::write_out)?,
            Operation::PrintRoom => print_room(rt, payload)?,
            Operation::Digest => println!(rt; "digest {}", Digest(payload))?,
            Operation::SetCount => self.set_count(rt, number(payload, usize::MAX)?)?,
            Operation::Poke => self.poke(rt, payload)?,
            Operation::SetLength => {
                self.set_length(rt, number(payload, self.store.bytes.len())?)?
            }
            Operation::SetTally => self.set_tally(rt, payload)?,
            Operation::SetTable => self.set_table(rt, payload)?,
            Operation::Reset => self.reset(rt, payload)?,
        }
        Ok(())
    }

    fn start(&mut self, rt: &impl Print, event: &[u8]) -> io::Result<()> {
        let taken = takes::start(self.store.front_mut(), self.table.front(), event);
        self.count = taken.count;
        println!(rt;
            "start {} {} {}",
            Shown(taken.answer),
            taken.count,
            Digest(&self.store.bytes)
        )
    }

    fn take(&mut self, rt: &impl Print, event: &[u8]) -> io::Result<()> {
        let store = self.store.front_mut();
        let taken = tally::take_counted(
            store,
            self.count,
            self.table.front(),
            event,
            &mut self.tally,
        );
        self.count = taken.count;
        println!(rt;
            "take {} {} {} {}",
            Shown(taken.answer),
            taken.count,
            Digest(&self.store.bytes),
            self.tally
        )
    }

    fn take_bundle(&mut self, rt: &impl Print, bundle: &[u8]) -> io::Result<()> {
        let store = self.store.front_mut();
        let taken = tally::take_bundle_counted(
            store,
            self.count,
            self.table.front(),
            bundle,
            &mut self.tally,
        );
        self.count = taken.count;
        println!(rt;
            "bundle {} {} {} {}",
            Shown(taken.answer.map(Figures)),
            taken.count,
            Digest(&self.store.bytes),
            self.tally
        )
    }

    fn look_up(&self, rt: &impl Print, id: &[u8]) -> io::Result<()> {
        let mut number = 0;
        let part = store::look_up(self.held(), id, &mut number);
        if number == 0 {
            println!(rt; "lookup {} {}", Digest(part), part.len())
        } else {
            println!(rt; "lookup refused {number}")
        }
    }

    fn verdict(&self, rt: &impl Print, id: &[u8]) -> io::Result<()> {
        let answer = reports::verdict(self.held(), id).map(u8::from);
        println!(rt; "verdict {}", Shown(answer))
    }

    // Fills as many bytes of output as the payload says, lends them to a call that writes them, and writes its line.
    fn report<A: Display + Drop, F: FnOnce(Held<'_, '_>, &mut [u8]) -> Result<A, Refusal>>(
        &self,
        rt: &impl Print,
        name: &str,
        payload: &[u8],
        call: F,
    ) -> Result<(), ScriptError>
        requires { F.IsAlwaysCallable call }
    {
        let n = number(payload, OUTPUT_BYTES)?;
        let mut area = [238; OUTPUT_BYTES];
        let out = &mut area[..n];
        let answer = call(self.held(), out);
        println!(rt; "{name} {} {}", Shown(answer), Digest(out))?;
        Ok(())
    }

    fn set_count(&mut self, rt: &impl Print, count: usize) -> io::Result<()> {
        self.count = count;
        println!(rt; "count {count}")
    }

    fn set_length(&mut self, rt: &impl Print, length: usize) -> io::Result<()> {
        self.store.length = length;
        println!(rt; "length {length}")
    }

    fn set_tally(&mut self, rt: &impl Print, payload: &[u8]) -> Result<(), ScriptError> {
        if payload.len() != 12 {
            return Err(ScriptError::Bad);
        }
        self.tally = Tally {
            new: octets::number32(payload, 0),
            repeats: octets::number32(payload, 4),
            refused: octets::number32(payload, 8),
        };
        println!(rt; "tally {}", self.tally)?;
        Ok(())
    }

    // Overwrites bytes of the store area.
    fn poke(&mut self, rt: &impl Print, payload: &[u8]) -> Result<(), ScriptError> {
        if payload.len() < 4 {
            return Err(ScriptError::Bad);
        }
        let at = octets::number32(payload, 0) as usize;
        let bytes = &payload[4..];
        if self.store.bytes.len() < at + bytes.len() {
            return Err(ScriptError::Bad);
        }
        octets::paste(&mut self.store.bytes, at, bytes);
        println!(rt; "poke")?;
        Ok(())
    }

    fn set_table(&mut self, rt: &impl Print, payload: &[u8]) -> Result<(), ScriptError> {
        if self.table.bytes.len() < payload.len() {
            return Err(ScriptError::Bad);
        }
        octets::paste(&mut self.table.bytes, 0, payload);
        self.table.length = payload.len();
        println!(rt; "table {}", payload.len())?;
        Ok(())
    }

    fn reset(&mut self, rt: &impl Print, payload: &[u8]) -> Result<(), ScriptError> {
        if !payload.is_empty() {
            return Err(ScriptError::Bad);
        }
        *self = Bench::new();
        println!(rt; "reset")?;
        Ok(())
    }
}

// Writes what the printing program writes for a room.bun of these bytes.
fn print_room(rt: &impl Print, file: &[u8]) -> io::Result<()> {
    let mut store = print_program::area::<49152>();
    let mut out = print_program::area::<8192>();
    let n = print_program::page(file, &mut store, &mut out);
    println!(rt; "print {}", Hex(octets::part(&out, 0, n)))
}
