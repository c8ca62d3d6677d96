// The records of a script, as docs/REPLAY.md has them, and what ends one early.

ghost use Rattle.std.specs.Prelude.{◌≤◌, IfOk};

use print_program::read_full;
use std::io::{self, Read};

// The longest payload of a record.
pub const PAYLOAD_BYTES: usize = 131072;

// What a record asks.
#[derive(Clone, Copy, Debug, PartialEq, Eq)]
pub enum Operation {
    Start,
    Take,
    TakeBundle,
    LookUp,
    Order,
    Verdict,
    Map,
    WriteOut,
    PrintRoom,
    Digest,
    SetCount,
    Poke,
    SetLength,
    SetTally,
    SetTable,
    Reset,
}

// Why a script ends early.
#[derive(Drop)]
pub enum ScriptError {
    // A record that is none, or that breaks off.
    Bad,
    // Input or output failed.
    Io(io::Error),
}

impl From<io::Error> for ScriptError {
    fn from(error: io::Error) -> ScriptError {
        ScriptError::Io(error)
    }
}

impl TryFrom<u8> for Operation {
    type Error = ScriptError;

    fn try_from(letter: u8) -> Result<Operation, ScriptError> {
        Ok(match letter {
            b'S' => Operation::Start,
            b'T' => Operation::Take,
            b'B' => Operation::TakeBundle,
            b'L' => Operation::LookUp,
            b'O' => Operation::Order,
            b'V' => Operation::Verdict,
            b'M' => Operation::Map,
            b'W' => Operation::WriteOut,
            b'R' => Operation::PrintRoom,
            b'D' => Operation::Digest,
            b'C' => Operation::SetCount,
            b'P' => Operation::Poke,
            b'N' => Operation::SetLength,
            b'Y' => Operation::SetTally,
            b'K' => Operation::SetTable,
            b'Z' => Operation::Reset,
            _ => return Err(ScriptError::Bad),
        })
    }
}

// The one number of a payload of four bytes, at most the given one.
pub(crate) fn number(payload: &[u8], most: usize) -> Result<usize, ScriptError>
    ensures { IfOk result (λ n. n ≤ most) }
{
    let n = octets::number32(payload, 0) as usize;
    if payload.len() != 4 || most < n {
        return Err(ScriptError::Bad);
    }
    Ok(n)
}

// What a script asks for, and with which bytes.
#[derive(Clone, Copy)]
pub struct Record<'a> {
    pub operation: Operation,
    pub payload: &'a [u8],
}

// Reads a record, whose payload goes to the front of the payload area, or none at the script's end.
pub(crate) fn read_record<'a>(
    input: &mut impl Read,
    area: &'a mut [u8],
) -> Result<Option<Record<'a>>, ScriptError> {
    let mut header = [0u8; 5];
    let got = read_full(input, &mut header)?;
    if got == 0 {
        return Ok(None);
    }
    let length = octets::number32(&header, 1) as usize;
    if got < header.len() || area.len() < length {
        return Err(ScriptError::Bad);
    }
    if read_full(input, &mut area[..length])? < length {
        return Err(ScriptError::Bad);
    }
    let operation = Operation::try_from(header[0])?;
    let payload = &area[..length];
    Ok(Some(Record { operation, payload }))
}
