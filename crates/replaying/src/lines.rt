// The parts of a line.

use std::fmt::{self, Display, Formatter};
use takes::Tally;

// Bytes in hexadecimal.
#[derive(Clone, Copy)]
pub struct Hex<'a>(pub &'a [u8]);

impl Display for Hex<'_> {
    fn fmt<W: fmt::Write>(&self, f: &mut Formatter<W>) -> fmt::Result {
        for byte in self.0 {
            write!(f, "{byte:02x}")?;
        }
        Ok(())
    }
}

// The SHA-256 of bytes, in hexadecimal.
#[derive(Clone, Copy)]
pub struct Digest<'a>(pub &'a [u8]);

impl Display for Digest<'_> {
    fn fmt<W: fmt::Write>(&self, f: &mut Formatter<W>) -> fmt::Result {
        write!(f, "{}", Hex(&sha256::digest(self.0)))
    }
}

// What a bundle answers: its figures, after their name.
#[derive(Clone, Copy)]
pub struct Figures(pub Tally);

impl Display for Figures {
    fn fmt<W: fmt::Write>(&self, f: &mut Formatter<W>) -> fmt::Result {
        write!(f, "figures {}", self.0)
    }
}
