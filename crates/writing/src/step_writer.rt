// The writer of steps.
ghost use Rattle.std.specs.Prelude.{◌≡◌, ℕ, ◌≤◌, true, ◌&&◌, map, length, take as firsts, IfOk, Some, ◌==◌, nat_le};
ghost use Rattle.terms.specs.declared.fault.Cause.TheVariants.{WrongLength};
ghost use Rattle.terms.specs.Faults.{otherwise, unless};
ghost use Rattle.terms.specs.Bytes.{nat16};
ghost use Rattle.law.specs.Calls.Call.{infer};
ghost use Rattle.law.specs.NumbersView.{values_of};
ghost use Rattle.law.specs.Spelt.{line_of, lines_of};
ghost use Rattle.spelling.specs.OneSpelling.{ReadsBack};
ghost use Rattle.spelling.specs.StepsSeen.{call_in};
ghost use Rattle.spelling.specs.StepsWritten.{counted, line_bytes, lines_bytes, lines_counted, mapped_bytes, number_bytes, numbers_bytes, spelling, suits, written};
ghost use Rattle.writing.specs.Laid.{HasRoom, Lays};

use crate::pen::Pen;
use law::numbers::Numbers;
use law::premise::{Line, Lines};
use law::step::Step;
use terms::checks::need;
use terms::fault::{Cause, Fault};

// A number that is 0 has no bytes.
fn number_length(number: i32) -> usize
    ensures is { result ≡ length (number_bytes number) }
    ensures small { result ≤ 4 }
{
    if number != 0 { 4 } else { 0 }
}

// A loop, since a count of those that a filter leaves branches at each number.
fn numbers_length(numbers: &[i32]) -> usize
    requires { length numbers.now ≤ 16 }
    ensures is { result ≡ length (numbers_bytes numbers.now) }
    ensures small { result ≤ 64 }
{
    let mut total = 0;
    for number in numbers {
        total += number_length(*number);
    }
    total
}

// The length of n numbers by a map: four bytes for each that is not 0. That n is at most 16 is asked of a number alone.
fn mapped_length(n: usize, numbers: Numbers) -> Result<usize, Fault>
    requires { n ≤ 16 }
    ensures is { result ≡ otherwise (unless (length (values_of numbers) == n) WrongLength 0) (length (mapped_bytes (values_of numbers))) }
    ensures small { IfOk result (λ k. k ≤ 66) }
{
    let numbers = numbers.values();
    need(numbers.len() == n, Cause::WrongLength, 0)?;
    Ok(2 + numbers_length(numbers))
}

// The length of a line whose premises a byte can count.
fn line_length(line: &Line<'_>) -> Result<usize, Fault>
    ensures is { result ≡ otherwise (unless (counted (line_of line.now).premises) WrongLength 0) (length (line_bytes (line_of line.now))) }
    ensures small { IfOk result (λ k. k ≤ 1025) }
{
    let count = line.premises.len();
    need(count <= 255, Cause::WrongLength, 0)?;
    Ok(5 + 4 * count)
}

// The length of lines that a byte can count, as it can count their premises.
fn lines_length(lines: Lines<'_>) -> Result<usize, Fault>
    ensures is { result ≡ otherwise (unless (counted (lines_of lines.entry) && lines_counted (lines_of lines.entry)) WrongLength 0) (length (lines_bytes (lines_of lines.entry))) }
    ensures small { IfOk result (λ k. k ≤ 261375) }
{
    need(lines.count <= 255, Cause::WrongLength, 0)?;
    let mut total = 0;
    for line in lines {
        total += line_length(&line)?;
    }
    Ok(total)
}

// The length of a step, or the end, whose lists suit n variables and clues of so many bytes.
// Here and below n and width stand apart, as in the public call.
fn step_length(n: usize, width: usize, step: &Option<Step<'_>>) -> Result<usize, Fault>
    ensures { result ≡ otherwise (unless (nat_le n 16 && suits n width (call_in step.now)) WrongLength 0) (length (spelling (call_in step.now))) }
{
    need(n <= 16, Cause::WrongLength, 0)?;
    // Here and below a match says which: the kinds of step are closed, and each brings something else.
    match step {
        Some(Step::Branch(coefficients, _)) => Ok(9 + mapped_length(n, *coefficients)?),
        Some(Step::Cut(line)) => Ok(1 + line_length(line)?),
        Some(Step::Chain(lines)) => Ok(2 + lines_length(*lines)?),
        Some(Step::Infer(clue, places)) => {
            need(clue.len() == width, Cause::WrongLength, 0)?;
            need(places.len() <= 255, Cause::WrongLength, 0)?;
            Ok(2 + clue.len() + 2 * places.len())
        }
        Some(Step::Take(values)) => Ok(1 + mapped_length(n, *values)?),
        Some(Step::Drop(place)) => {
            need(*place < 65_536, Cause::WrongLength, 0)?;
            Ok(3)
        }
        Some(Step::Pin(places)) => {
            need(places.len() == 2 * n, Cause::WrongLength, 0)?;
            Ok(1 + 4 * n)
        }
        Some(Step::Cutoff) | None => Ok(1),
    }
}

impl Pen<'_> {
    fn put_infer(&mut self, clue: &[u8], places: &[[u8; 2]])
        requires few { length places.now ≤ 255 }
        requires room { HasRoom self.old (spelling (Some (infer clue.now (map nat16 places.now)))) }
        ensures { Lays self.old (spelling (Some (infer clue.now (map nat16 places.now)))) self.new }
    {
        self.put(b"I");
        self.put(clue);
        self.put(&[places.len() as u8]);
        self.put_places(places);
    }

    fn put_step(&mut self, step: &Option<Step<'_>>)
        requires suits { (n : ℕ) × (width : ℕ) × ((nat_le n 16 && suits n width (call_in step.now)) ≡ true) }
        requires room { HasRoom self.old (spelling (call_in step.now)) }
        ensures { Lays self.old (spelling (call_in step.now)) self.new }
    {
        match step {
            Some(Step::Branch(coefficients, right)) => {
                self.put(b"B");
                self.put_mapped(*coefficients);
                self.put(&right.to_le_bytes());
            }
            Some(Step::Cut(line)) => {
                self.put(b"C");
                self.put_line(line);
            }
            Some(Step::Chain(lines)) => {
                self.put(b"L");
                self.put(&[lines.count as u8]);
                self.put_lines(*lines);
            }
            Some(Step::Infer(clue, places)) => self.put_infer(clue, places.items),
            Some(Step::Cutoff) => self.put(b"K"),
            Some(Step::Take(values)) => {
                self.put(b"T");
                self.put_mapped(*values);
            }
            Some(Step::Drop(place)) => {
                self.put(b"D");
                self.put(&(*place as u16).to_le_bytes());
            }
            Some(Step::Pin(places)) => {
                self.put(b"P");
                self.put_places(places.items);
            }
            None => self.put(b"E"),
        }
    }
}

fn write_record(
    n: usize,
    width: usize,
    step: Option<Step<'_>>,
    out: &mut [u8],
) -> Result<usize, Fault>
    ensures { (out.new, result) ≡ written n width (call_in step.entry) out.old }
{
    let length = step_length(n, width, &step)?;
    need(length <= out.len(), Cause::BufferTooShort, 0)?;
    let mut pen = Pen::new(out);
    pen.put_step(&step);
    Ok(pen.at)
}

// Writes a step, or the end, to the front of a buffer, for n variables and clues of so many bytes; its length.
// What is written is read back as that step.
pub fn write_step(
    n: usize,
    width: usize,
    step: Option<Step<'_>>,
    out: &mut [u8],
) -> Result<usize, Fault>
    ensures step { (out.new, result) ≡ written n width (call_in step.entry) out.old }
    ensures back { IfOk result (λ k. ReadsBack n width (call_in step.entry) (firsts k out.new)) }
{
    write_record(n, width, step, out)
}
