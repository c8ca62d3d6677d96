// The text of the printing program, in a lent output: a first line with the numbers of links and verdicts, then a line for each row
// of the map; or the line of a refusal. Rests on `octets`, `model`, `verdicts` and, for the length of a row, `cabling`.

#![tactic(auto)]

ghost use Rattle.std.specs.Prelude.{◌≡◌, ◌+◌, ◌*◌, ◌/◌, ◌≤◌, eqb, length, drop};
ghost use mathlib.Core.List.{map, flatten};
ghost use Rattle.octets.specs.Octets.{pasted};
ghost use Rattle.model.specs.Output.{overwritten};
ghost use Rattle.text_format.specs.Text.{
  decimal,
  digits,
  field,
  refusal_line,
  head_line,
  row_line,
  how_many,
  row_cord,
  rows_in,
  text_of,
  answer_of,
  output_of,
  answer_of_printed,
};
ghost use Rattle.text_format.specs.Steps.{head_of};
ghost use Rattle.verdicts.specs.Numbers.{verdict_number};

use cabling::ROW_BYTES;
use verdicts::Verdict;

// The five digits of a number, zeros in front, and where those of the number itself start. By `itoa`, since no contract says that
// `write!` succeeds where the text has room.
fn digits(n: u16) -> ([u8; 5], usize)
    ensures five { result.0 ≡ digits 5 n }
    ensures number { (drop result.1 result.0 ≡ decimal n) × (result.1 ≤ 5) }
{
    let mut text = *b"00000";
    let start = itoa::write_digits(u64::from(n), &mut text, 5);
    (text, start)
}

// Writes a number without leading zeros; answers where it ends.
fn write_number(out: &mut [u8], at: usize, n: u16) -> usize
    requires { at + length (decimal n) ≤ length out.old }
    ensures written { out.new ≡ pasted out.old at (decimal n) }
    ensures value { result ≡ at + length (decimal n) }
{
    let (five, start) = digits(n);
    let number = &five[start..];
    octets::paste(out, at, number);
    at + number.len()
}

// Writes a word and its number; answers where they end.
#[tactic(auto, using(crate::proofs::TextWritten::field_length, crate::proofs::TextWritten::field_five, crate::proofs::TextWritten::field_behind))]
fn write_field(out: &mut [u8], at: usize, word: &[u8], n: u16) -> usize
    requires { at + length (field word.now n) ≤ length out.old }
    ensures written { out.new ≡ pasted out.old at (field word.now n) }
    ensures value { (result ≡ at + length (field word.now n)) × (result ≤ at + (length word.now + 5)) }
{
    octets::paste(out, at, word);
    write_number(out, at + word.len(), n)
}

// Writes the first line to the front of the output; answers its length.
#[tactic(auto, using(crate::proofs::TextWritten::field_five), unfolding(crate::specs::Text::head_line))]
fn write_head(out: &mut [u8], links: u16, waiting: u16, unsound: u16, void: u16) -> usize
    requires { 51 ≤ length out.old }
    ensures written { out.new ≡ overwritten (head_line links waiting unsound void) out.old }
    ensures value { (result ≡ length (head_line links waiting unsound void)) × (result ≤ 51) }
{
    let a = write_field(out, 0, b"LINKS ", links);
    let b = write_field(out, a, b" WAITING ", waiting);
    let c = write_field(out, b, b" UNSOUND ", unsound);
    let d = write_field(out, c, b" VOID ", void);
    octets::paste(out, d, b"\n");
    d + 1
}

// Writes the line of a refusal to the front of the output; answers its length.
// Kept, project rule: a public call asks no more than before, and this one answers for every number.
#[tactic(auto, using(crate::proofs::TextWritten::field_three, crate::proofs::TextWritten::two_pieces), unfolding(crate::specs::Text::refusal_line))]
pub fn refusal_line(number: u8, out: &mut [u8]) -> usize
    requires { 12 ≤ length out.old }
    ensures value { result ≡ length (refusal_line number) }
    ensures written { out.new ≡ overwritten (refusal_line number) out.old }
{
    let end = write_field(out, 0, b"REFUSED ", u16::from(number));
    octets::paste(out, end, b"\n");
    end + 1
}

// Writes the last digits of a number, zeros in front, over the place of a line that is theirs.
#[tactic(auto, using(crate::proofs::Numbers::last_digits))]
fn fill(line: &mut [u8], at: usize, width: usize, n: u16)
    requires { width ≤ 5 }
    ensures { line.new ≡ pasted line.old at (digits width n) }
{
    let (five, _) = digits(n);
    octets::paste(line, at, &five[5 - width..]);
}

// The line of a row.
#[tactic(auto, using(crate::proofs::TextWritten::line_of))]
fn row_line(row: &[u8]) -> [u8; 22]
    ensures { result ≡ row_line (row_cord row.now) }
{
    let mut line = *b"0000 0000 00 00 00000\n";
    fill(&mut line, 0, 4, octets::number16(row, 0));
    fill(&mut line, 5, 4, octets::number16(row, 2));
    fill(&mut line, 10, 2, u16::from(octets::byte(row, 4)));
    fill(&mut line, 13, 2, u16::from(octets::byte(row, 5)));
    fill(&mut line, 16, 5, octets::number16(row, 6));
    line
}

// A line for a row.
const LINE_BYTES: usize = 22;

// Writes the lines of the rows from an offset on.
fn write_lines(rows: &[u8], out: &mut [u8], at: usize)
    requires { at + length rows.now / 8 * 22 ≤ length out.old }
    ensures { out.new ≡ pasted out.old at (flatten (map row_line (rows_in rows.now))) }
{
    for (i, row) in rows.chunks_exact(ROW_BYTES).enumerate() {
        octets::paste(out, at + i * LINE_BYTES, &row_line(row));
    }
}

// How many of the verdicts are the given one.
#[tactic(auto, using(crate::proofs::TextWritten::how_many_by))]
fn count(verdicts: &[Verdict], of: Verdict) -> u16
    requires { length verdicts.now ≤ 256 }
    ensures { result ≡ how_many (verdict_number of) (map verdict_number verdicts.now) }
{
    let is_of = |verdict: &&Verdict|
        ensures { result ≡ eqb (verdict_number verdict.now.now) (verdict_number of) }
    { **verdict == of };
    verdicts.iter().filter(is_of).count() as u16
}

// Writes the first line for some links and verdicts to the front of the output; answers its length.
#[tactic(auto, unfolding(crate::specs::Steps::head_of))]
fn write_counts(out: &mut [u8], links: u16, verdicts: &[Verdict]) -> usize
    requires { (51 ≤ length out.old) × (length verdicts.now ≤ 256) }
    ensures written { out.new ≡ overwritten (head_of links (map verdict_number verdicts.now)) out.old }
    ensures value { (result ≡ length (head_of links (map verdict_number verdicts.now))) × (result ≤ 51) }
{
    let waiting = count(verdicts, Verdict::Waiting);
    let unsound = count(verdicts, Verdict::Unsound);
    let void = count(verdicts, Verdict::Void);
    write_head(out, links, waiting, unsound, void)
}

// Writes the text of the map call's rows and of one verdict an event to the front of the output, where it has room for all of it;
// answers the number of its bytes.
pub fn write_text(rows: &[u8], verdicts: &[Verdict], out: &mut [u8]) -> Option<usize>
    requires { (length rows.now ≤ 2048) × (length verdicts.now ≤ 256) }
    ensures answer { answer_of_printed result
        ≡ answer_of (text_of rows.now (map verdict_number verdicts.now)) out.old }
    ensures output { out.new ≡ output_of (text_of rows.now (map verdict_number verdicts.now)) out.old }
{
    let n = rows.len() / ROW_BYTES;
    let mut head = [0u8; 51];
    let at = write_counts(&mut head, n as u16, verdicts);
    let size = at + n * LINE_BYTES;
    if out.len() < size {
        return None;
    }
    octets::paste(out, 0, &head[..at]);
    write_lines(rows, out, at);
    Some(size)
}
