// The records of a trace file: a step, whose lists are parts of the file, or the end.
ghost use Rattle.std.specs.Prelude.{◌≡◌, ◌≤◌, IfOk};
ghost use Rattle.fields.specs.Rest.{with_rest};
ghost use Rattle.spelling.specs.StepsRead.{after_lines, branch_read, chain_read, cut_read, drop_read, infer_read, line_read, mapped_read, part_read, pin_read, step_fields, step_read, take_read};
ghost use Rattle.spelling.specs.OneSpelling.{Spelt};
ghost use Rattle.spelling.specs.StepsSeen.{call_in, line_seen, parts_seen, rest_seen, step_seen};

use crate::layout::Layout;
use fields::body::read_body;
use fields::bytes::{file_ends, read};
use fields::letters::out_of_phase;
use fields::maps::Mapped;
use law::numbers::Numbers;
use law::premise::{Line, Lines, Packed};
use law::step::Step;
use terms::fault::Fault;

// What stands at the front of bytes, and the bytes after it.
type Reading<'a, T> = Result<(T, &'a [u8]), Fault>;

// So many bytes.
fn read_part(count: usize, bytes: &[u8]) -> Reading<'_, &[u8]>
    ensures { parts_seen result ≡ part_read count bytes.now }
{
    bytes.split_at_checked(count).ok_or(file_ends())
}

// A line: a count of premises, the premises, and a divisor.
fn read_line(bytes: &[u8]) -> Reading<'_, Line<'_>>
    ensures { line_seen result ≡ line_read bytes.now }
{
    let (count, bytes) = read::<u8, _>(bytes)?;
    let (premises, bytes) = read_part(4 * usize::from(count), bytes)?;
    let (divisor, rest) = read::<u32, _>(bytes)?;
    let premises = Packed::new(premises);
    Ok((Line { premises, divisor }, rest))
}

// What follows so many lines.
fn skip_lines(count: usize, bytes: &[u8]) -> Result<&[u8], Fault>
    ensures { rest_seen result ≡ after_lines count bytes.now }
{
    let mut rest = bytes;
    for _ in 0..count {
        let (_, after) = read_line(rest)?;
        rest = after;
    }
    Ok(rest)
}

// Sixteen numbers, as a map for n variables spells them.
fn read_mapped(n: usize, bytes: &[u8]) -> Reading<'_, [i32; 16]>
    ensures { with_rest result ≡ mapped_read n bytes.now }
{
    let (mapped, rest) = Mapped::read(bytes)?;
    mapped.check(n)?;
    Ok((mapped.numbers, rest))
}

fn read_cut(fields: &[u8]) -> Reading<'_, Option<Step<'_>>>
    ensures { step_seen result ≡ cut_read fields.now }
{
    let (line, rest) = read_line(fields)?;
    Ok((Some(Step::Cut(line)), rest))
}

fn read_chain(fields: &[u8]) -> Reading<'_, Option<Step<'_>>>
    ensures { step_seen result ≡ chain_read fields.now }
{
    let (count, bytes) = read::<u8, _>(fields)?;
    let count = usize::from(count);
    let rest = skip_lines(count, bytes)?;
    Ok((Some(Step::Chain(Lines { count, bytes })), rest))
}

fn read_drop(fields: &[u8]) -> Reading<'_, Option<Step<'_>>>
    ensures { step_seen result ≡ drop_read fields.now }
{
    let (place, rest) = read::<u16, _>(fields)?;
    Ok((Some(Step::Drop(usize::from(place))), rest))
}

impl Layout {
    fn read_branch(self, fields: &[u8]) -> Reading<'_, Option<Step<'_>>>
        ensures { step_seen result ≡ branch_read self.n fields.now }
    {
        let (body, rest) = read_body(self.n, fields)?;
        let items = body.numbers;
        let right = body.right;
        let count = self.n;
        Ok((Some(Step::Branch(Numbers { items, count }, right)), rest))
    }

    fn read_infer(self, fields: &[u8]) -> Reading<'_, Option<Step<'_>>>
        ensures { step_seen result ≡ infer_read self.width fields.now }
    {
        let (clue, fields) = read_part(self.width, fields)?;
        let (count, fields) = read::<u8, _>(fields)?;
        let (places, rest) = read_part(2 * usize::from(count), fields)?;
        Ok((Some(Step::Infer(clue, Packed::new(places))), rest))
    }

    fn read_take(self, fields: &[u8]) -> Reading<'_, Option<Step<'_>>>
        ensures { step_seen result ≡ take_read self.n fields.now }
    {
        let (items, rest) = read_mapped(self.n, fields)?;
        let count = self.n;
        Ok((Some(Step::Take(Numbers { items, count })), rest))
    }

    fn read_pin(self, fields: &[u8]) -> Reading<'_, Option<Step<'_>>>
        ensures { step_seen result ≡ pin_read self.n fields.now }
    {
        let (places, rest) = read_part(4 * self.n, fields)?;
        Ok((Some(Step::Pin(Packed::new(places))), rest))
    }

    // What follows the letter.
    fn read_fields(self, letter: u8, fields: &[u8]) -> Reading<'_, Option<Step<'_>>>
        ensures { step_seen result ≡ step_fields self.n self.width letter fields.now }
    {
        // A match says which: the letters are closed, and each has fields of its own.
        match char::from(letter) {
            'B' => self.read_branch(fields),
            'C' => read_cut(fields),
            'L' => read_chain(fields),
            'I' => self.read_infer(fields),
            'K' => Ok((Some(Step::Cutoff), fields)),
            'T' => self.read_take(fields),
            'D' => read_drop(fields),
            'P' => self.read_pin(fields),
            'E' => Ok((None, fields)),
            _ => Err(out_of_phase()),
        }
    }
}

// One record, for n variables and clues of so many bytes, and the bytes after it; none is the end.
// What is read as a step is what is written of that step.
pub fn read_step(n: usize, width: usize, bytes: &[u8]) -> Result<(Option<Step<'_>>, &[u8]), Fault>
    ensures step { step_seen result ≡ step_read n width bytes.now }
    ensures spelt { IfOk result (λ p. n ≤ 16 → Spelt n width (call_in p.0) bytes.now p.1.now) }
{
    read_record(n, width, bytes)
}

// n and width stand apart here and in the public call; `Layout` has them together.
fn read_record(n: usize, width: usize, bytes: &[u8]) -> Reading<'_, Option<Step<'_>>>
    ensures { step_seen result ≡ step_read n width bytes.now }
{
    let [letter, fields @ ..] = bytes else {
        return Err(file_ends());
    };
    Layout::new(n, width).read_fields(*letter, fields)
}
