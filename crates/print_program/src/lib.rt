// The printing program, as a function that small programs run: reads room.bun in the working directory and writes the room's text,
// or the line of a refusal. What it writes is `page`'s output.

#![tactic(auto)]

ghost use Rattle.std.specs.Prelude.{◌≡◌, ◌≤◌, length, take};
ghost use Rattle.std.specs.Io.{ReadsAtMost};
ghost use Rattle.event.specs.Answers.{answer_of};
ghost use Rattle.reports.specs.Reports.{answered};
ghost use Rattle.print_program.specs.Page.{taken_text, file_text, page_of};

use event::Refusal;
use std::fs::File;
use std::io::{self, Read};
use std::rt::Files;
use unit::Held;

// An array by its length alone: a long list stays out of the proofs.
pub fn area<const N: usize>() -> [u8; N]
    ensures { N ≡ length result }
{
    [0; N]
}

// Takes the whole file into a started unit, and writes the text of the events held. The take is not refused: a file with a first event
// passes check 8, and a start leaves a store that passes check 2. Not inlined: where a file is refused, the stack has no tables of these calls.
#[inline(never)]
#[tactic(auto, unfolding(crate::specs::Page::taken_text))]
fn write_taken(
    file: &[u8],
    store: &mut [u8],
    count: usize,
    table: &[u8],
    out: &mut [u8],
) -> Result<usize, Refusal>
    ensures { answered (answer_of result) out.new
        ≡ taken_text table.now file.now store.old count out.old }
{
    let taken = unit::take_bundle(store, count, table, file);
    let held = Held {
        store: &store[..],
        count: taken.count,
        table,
    };
    unit::text(held, out)
}

// Starts a unit with the first event of a file, takes the whole file into it, and writes its text. Each call is lent document 01's cord table.
#[tactic(auto, using(crate::proofs::Long::long_refused, crate::proofs::Started::none_refused, crate::proofs::Started::started_taken))]
fn write_file(file: &[u8], store: &mut [u8], out: &mut [u8]) -> Result<usize, Refusal>
    ensures { answered (answer_of result) out.new ≡ file_text file.now store.old out.old }
{
    if 65536 < file.len() {
        return Err(Refusal::BadBundle);
    }
    let first = unit::first_event(file)?;
    let table = unit::document_table();
    let started = unit::start(store, &table, first);
    started.answer?;
    write_taken(file, store, started.count, &table, out)
}

// Writes what the program writes for a room.bun of these bytes to the front of the output; answers how many bytes that is.
// The store is room to work in.
#[tactic(auto, using(crate::proofs::Started::page_refused))]
pub fn page(file: &[u8], store: &mut [u8], out: &mut [u8]) -> usize
    requires { 12 ≤ length out.old }
    ensures { take result out.new ≡ page_of file.now store.old out.old }
{
    match write_file(file, store, out) {
        Ok(n) => n,
        Err(refusal) => text_format::refusal_line(u8::from(refusal), out),
    }
}

// Writes the line of a refusal.
fn refuse(rt: &impl Print, refusal: Refusal) -> io::Result<()> {
    let mut line = [0u8; 12];
    let n = text_format::refusal_line(u8::from(refusal), &mut line);
    rt.write_all(octets::part(&line, 0, n))
}

// Writes the page of the file's bytes. The text of 256 events is never longer than the area. Not inlined: where a file is refused, the stack
// has no store.
#[inline(never)]
fn print_bytes(rt: &impl Print, file: &[u8]) -> io::Result<()> {
    let mut store = area::<49152>();
    let mut out = area::<8192>();
    let n = page(file, &mut store, &mut out);
    rt.write_all(octets::part(&out, 0, n))
}

// Reads until the buffer is full or the input ends; answers how many bytes that is. A read that fails is not taken for the end; one that a
// signal interrupts fails too.
pub fn read_full(input: &mut impl Read, buf: &mut [u8]) -> io::Result<usize>
    ensures { ReadsAtMost result buf.new }
{
    let mut done = 0;
    // Kept, project rule: an interrupted read is refused as it was, and std's copy reads again. `read_exact` fails on a shorter file.
    while done < buf.len() {
        let more = input.read(&mut buf[done..])?;
        if more == 0 {
            break;
        }
        done += more;
    }
    Ok(done)
}

// Opens room.bun and reads it. The file is closed before anything is written.
fn read_room(rt: &impl Files, buf: &mut [u8]) -> io::Result<usize> {
    let mut file = File::open(rt, "room.bun")?;
    read_full(&mut file, buf)
}

// A file that is absent or cannot be read to its end is refused here: a part of a room is not printed for the whole. Of a file one
// byte more than the limit is read at most, by which `page` tells a longer one.
pub fn print(rt: &(impl Files + Print)) -> io::Result<()> {
    let mut file = area::<65537>();
    match read_room(rt, &mut file) {
        Ok(n) => print_bytes(rt, octets::part(&file, 0, n)),
        Err(_) => refuse(rt, Refusal::BadBundle),
    }
}
