// The row that a line of premises makes of a table.
ghost use Rattle.std.specs.Prelude.{◌≡◌, ℕ, ◌+◌, ◌-◌, ◌<◌, ◌≤◌, if◌then◌else◌, map, length, take, Some, None, MatchResult, nat_lt, slice_index_or};
ghost use Rattle.terms.specs.declared.fault.Cause.TheVariants.{NoSuchPlace, NotDivisible, OutOfRange, RowTooLarge};
ghost use Rattle.terms.specs.Faults.{answered, first_fault, first_unless};
ghost use Rattle.terms.specs.Limits.{million, within};
ghost use Rattle.law.specs.Lines.{between, divides, in_line, line_checks, lines_checks, made_checks, number_checks, summed};
ghost use Rattle.law.specs.Spelt.{line_of, lines_of, premises_of};
ghost use Rattle.arrayvec.specs.ArrayVec.{array_vec_len};
ghost use Rattle.derivation.specs.Sums.{ChainMade, Divided, LineAdded, LineMade, Made, Quotients, divided_checks, no_premise, quotients, sum_of, table_of};

use crate::row_stack::RowStack;
use crate::sums::Sums;
use law::premise::{Line, Lines, Premise, Premises};
use terms::checks::{is_right, is_small, need, need_none};
use terms::fault::{Cause, Fault};
use terms::row::{Coefficients, Row};

// ---- the checks of a line's numbers
pub(crate) fn is_between(low: usize, high: usize, number: usize) -> bool
    ensures { result ≡ between low high number }
{
    (low..=high).contains(&number)
}

// Refuses at the first premise whose multiplier is not 1 to 10,000.
fn check_multipliers(premises: &Premises<'_>) -> Result<(), Fault>
    ensures { result ≡ answered (first_unless OutOfRange 0 (map (λ p. between 1 10000 p.multiplier) (premises_of premises.now))) }
{
    need_none(
        premises.items.iter().position(|item| !is_between(
            1,
            10_000,
            usize::from(Premise::from(*item).multiplier),
        )),
        Cause::OutOfRange,
    )
}

// The number of premises, their multipliers, and the divisor.
fn check_numbers(line: &Line<'_>) -> Result<(), Fault>
    ensures { result ≡ answered (first_fault (number_checks (line_of line.now))) }
{
    let count = line.premises.len();
    need(is_between(1, 32, count), Cause::WrongLength, 0)?;
    check_multipliers(&line.premises)?;
    need(
        is_between(1, 1_000_000, line.divisor as usize),
        Cause::OutOfRange,
        count,
    )
}

// Refuses at the first premise whose place is not one of the table's.
fn check_places(premises: &Premises<'_>, count: usize) -> Result<(), Fault>
    ensures { result ≡ answered (first_unless NoSuchPlace 0 (map (λ p. nat_lt p.place count) (premises_of premises.now))) }
{
    need_none(
        premises
            .items
            .iter()
            .position(|item| usize::from(Premise::from(*item).place) >= count),
        Cause::NoSuchPlace,
    )
}

// A coefficient, if the number is within 1,000,000 of zero.
pub(crate) fn coefficient(number: i64) -> Option<i32>
    ensures { result ≡ (if within million number then Some number else None) }
{
    i32::try_from(number)
        .ok()
        .filter(|number| is_small(*number))
}

// ---- a line whose numbers pass
// A line whose numbers pass their checks.
#[derive(Clone, Copy)]
pub(crate) struct Numbered<'a> {
    line: Line<'a>,
    ghost numbers: { first_fault (number_checks (line_of line)) ≡ None },
    ghost positive: { 0 < line.divisor },
}

impl<'a> Numbered<'a> {
    // The line, if its numbers pass.
    pub(crate) fn new(line: Line<'a>) -> Result<Numbered<'a>, Fault>
        ensures { MatchResult result (λ l. l.line ≡ line.entry) (λ f. first_fault (number_checks (line_of line.entry)) ≡ Some f) }
    {
        check_numbers(&line)?;
        Ok(Numbered { line })
    }

    // The premises' rows times their multipliers, added.
    fn sum(&self, rows: &[Row]) -> Sums
        requires { (i : ℕ) → i < length (premises_of self.now.line.premises) → (slice_index_or (premises_of self.now.line.premises) i no_premise).place < length rows.now }
        ensures { (n : ℕ) → n ≤ 16 → sum_of n result ≡ summed (table_of n rows.now) (premises_of self.now.line.premises) }
    {
        let mut sums = Sums::default();
        for item in self.line.premises.items {
            let premise = Premise::from(*item);
            sums.add(&rows[usize::from(premise.place)], premise.multiplier);
        }
        sums
    }

    // Refuses at the first sum that is not divided without remainder.
    fn check_division(&self, sums: &[i64]) -> Result<(), Fault>
        ensures { result ≡ answered (first_unless NotDivisible 0 (map (divides self.now.line.divisor) sums.now)) }
    {
        need_none(
            sums.iter()
                .position(|sum| sum.rem_euclid(self.line.divisor as i64) != 0),
            Cause::NotDivisible,
        )
    }

    // The quotients of the sums, or a refusal at the first that is not within the row limits.
    fn divide_all(&self, sums: &[i64]) -> Result<Coefficients, Fault>
        requires { length sums.now ≤ 16 }
        ensures { MatchResult result (λ c. Quotients sums.now self.now.line.divisor (take (length sums.now) c.items)) (λ f. first_unless RowTooLarge 0 (map (within million) (quotients self.now.line.divisor sums.now)) ≡ Some f) }
    {
        let mut items = [0; 16];
        // A loop: `try_from_fn` does not say that its error is the first.
        for (i, sum) in sums.iter().enumerate() {
            let quotient = coefficient(sum.div_euclid(self.line.divisor as i64));
            items[i] = quotient.ok_or(Cause::RowTooLarge.at(i))?;
        }
        Ok(Coefficients { items })
    }

    // The sums divided without remainder, and the right side rounded down.
    fn divide(&self, sums: &[i64], right: i64) -> Result<Row, Fault>
        requires { length sums.now ≤ 16 }
        ensures { MatchResult result (λ row. Divided (length sums.now) self.now.line.divisor (record { coefficients = sums.now; right = right }) row) (λ f. first_fault (divided_checks self.now.line.divisor (record { coefficients = sums.now; right = right })) ≡ Some f) }
    {
        self.check_division(sums)?;
        let coefficients = self.divide_all(sums)?;
        let right = right.div_euclid(self.line.divisor as i64);
        need(is_right(right), Cause::RowTooLarge, 16)?;
        Ok(Row {
            coefficients,
            right,
        })
    }
}

// ---- the row of a line
// The rows of a table, of so many variables.
#[derive(Clone, Copy)]
pub(crate) struct Rows<'a> {
    pub(crate) items: &'a [Row],
    pub(crate) size: usize,
    ghost narrow: { size ≤ 16 },
}

impl Rows<'_> {
    // The row that a line whose numbers pass makes, or the first check that applies.
    pub(crate) fn make_row(&self, line: &Numbered<'_>) -> Result<Row, Fault>
        ensures { MatchResult result (λ row. Made self.now.size (table_of self.now.size self.now.items.now) (line_of line.now.line) row) (λ f. first_fault (made_checks (table_of self.now.size self.now.items.now) (line_of line.now.line)) ≡ Some f) }
    {
        check_places(&line.line.premises, self.items.len())?;
        let sums = line.sum(self.items);
        line.divide(&sums.coefficients[..self.size], sums.right)
    }

    // The row that a line makes, its numbers checked first.
    fn make_line(&self, line: &Line<'_>) -> Result<Row, Fault>
        ensures { MatchResult result (λ row. LineMade self.now.size (table_of self.now.size self.now.items.now) (line_of line.now) row) (λ f. first_fault (line_checks (table_of self.now.size self.now.items.now) (line_of line.now)) ≡ Some f) }
    {
        let line = Numbered::new(*line)?;
        self.make_row(&line)
    }
}

// ---- the rows of a chain
// A table to which a chain's lines add their rows. These come off again on every way out.
struct Chain<'a> {
    rows: &'a mut RowStack,
    size: usize,
    saved: usize,
    ghost narrow: { size ≤ 16 },
}

impl Drop for Chain<'_> {
    fn drop(self)
        ensures { self.exit.0.now.items ≡ take self.entry.saved self.entry.rows.now.items }
    {
        let Chain {
            rows,
            size: _,
            saved,
        } = self;
        rows.truncate(saved);
    }
}

impl Chain<'_> {
    // The row that a line makes, which joins the table; a fault names the line.
    fn add(&mut self, line: &Line<'_>) -> Result<Row, Fault>
        requires high { self.old.saved ≤ array_vec_len self.old.rows.now }
        requires room { array_vec_len self.old.rows.now < 512 }
        ensures table { self.new.rows.ghost_name ≡ self.old.rows.ghost_name }
        ensures size { self.new.size ≡ self.old.size }
        ensures saved { self.new.saved ≡ self.old.saved }
        ensures front { take (array_vec_len self.old.rows.now) self.new.rows.now.items ≡ self.old.rows.now.items }
        ensures outcome { MatchResult result (λ row. LineAdded self.old.size (table_of self.old.size self.old.rows.now.items) (table_of self.old.size self.new.rows.now.items) (line_of line.now) row) (λ f. in_line (array_vec_len self.old.rows.now - self.old.saved + 1) (first_fault (line_checks (table_of self.old.size self.old.rows.now.items) (line_of line.now))) ≡ Some f) }
    {
        let rows = Rows {
            items: self.rows.as_slice(),
            size: self.size,
        };
        let number = rows.items.len() - self.saved + 1;
        let row = rows.make_line(line).map_err(|fault| Fault {
            line: number,
            ..fault
        })?;
        self.rows.push(row);
        Ok(row)
    }

    // The row that the last line makes, each line over the table and the rows of the lines before it.
    fn add_all(&mut self, lines: Lines<'_>) -> Result<Row, Fault>
        requires new { self.old.saved ≡ array_vec_len self.old.rows.now }
        requires some { 0 < lines.count }
        requires room { self.old.saved + lines.count ≤ 512 }
        ensures table { self.new.rows.ghost_name ≡ self.old.rows.ghost_name }
        ensures saved { self.new.saved ≡ self.old.saved }
        ensures front { take self.old.saved self.new.rows.now.items ≡ self.old.rows.now.items }
        ensures outcome { MatchResult result (λ row. ChainMade self.old.size (table_of self.old.size self.old.rows.now.items) (lines_of lines.entry) row) (λ f. first_fault (lines_checks 1 (table_of self.old.size self.old.rows.now.items) (lines_of lines.entry)) ≡ Some f) }
    {
        let mut last = Row::default();
        for line in lines {
            last = self.add(&line)?;
        }
        Ok(last)
    }
}

// The row that the last line makes; the table is as it was.
pub(crate) fn chain_row(rows: &mut RowStack, size: usize, lines: Lines<'_>) -> Result<Row, Fault>
    requires narrow { size ≤ 16 }
    requires some { 0 < lines.count }
    requires room { array_vec_len rows.old + lines.count ≤ 512 }
    ensures rows { rows.new.items ≡ rows.old.items }
    ensures outcome { MatchResult result (λ row. ChainMade size (table_of size rows.old.items) (lines_of lines.entry) row) (λ f. first_fault (lines_checks 1 (table_of size rows.old.items) (lines_of lines.entry)) ≡ Some f) }
{
    let saved = rows.len();
    let mut chain = Chain { rows, size, saved };
    chain.add_all(lines)
}
