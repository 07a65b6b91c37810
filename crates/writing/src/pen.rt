// A buffer that is written from its front on.
ghost use Rattle.std.specs.Prelude.{◌≡◌, ◌≤◌, true, map, length};
ghost use Rattle.writing.specs.Laid.{HasRoom, Lays};
ghost use Rattle.terms.specs.Bytes.{nat16};
ghost use Rattle.law.specs.NumbersView.{values_of};
ghost use Rattle.law.specs.Spelt.{line_of, lines_of, premise_in};
ghost use Rattle.spelling.specs.StepsWritten.{line_bytes, lines_bytes, lines_counted, map_of, mapped_bytes, number_bytes, numbers_bytes, places_bytes, premises_bytes};

use law::numbers::Numbers;
use law::premise::{Line, Lines};

// The buffer, and the place of the next byte.
#[derive(Drop)]
pub(crate) struct Pen<'a> {
    out: &'a mut [u8],
    pub(crate) at: usize,
}

impl<'a> Pen<'a> {
    pub(crate) fn new(out: &'a mut [u8]) -> Pen<'a>
        ensures buffer { result.out.ghost_name ≡ out.entry.ghost_name }
        ensures out { result.out.now ≡ out.old }
        ensures at { result.at ≡ 0 }
    {
        Pen { out, at: 0 }
    }

    pub(crate) fn put(&mut self, bytes: &[u8])
        requires { HasRoom self.old bytes.now }
        ensures { Lays self.old bytes.now self.new }
    {
        // The copy is a call, even of no bytes.
        if !bytes.is_empty() {
            let end = self.at + bytes.len();
            self.out[self.at..end].copy_from_slice(bytes);
            self.at = end;
        }
    }

    // A number that is 0 has no bytes.
    fn put_number(&mut self, number: i32)
        requires { HasRoom self.old (number_bytes number) }
        ensures { Lays self.old (number_bytes number) self.new }
    {
        if number != 0 {
            self.put(&number.to_le_bytes());
        }
    }

    fn put_numbers(&mut self, numbers: &[i32])
        requires { HasRoom self.old (numbers_bytes numbers.now) }
        ensures { Lays self.old (numbers_bytes numbers.now) self.new }
    {
        for number in numbers {
            self.put_number(*number);
        }
    }

    // The map of the numbers, and those that are not 0.
    pub(crate) fn put_mapped(&mut self, numbers: Numbers)
        requires few { length (values_of numbers) ≤ 16 }
        requires room { HasRoom self.old (mapped_bytes (values_of numbers)) }
        ensures { Lays self.old (mapped_bytes (values_of numbers)) self.new }
    {
        let numbers = numbers.values();
        self.put(&map_of(numbers).to_le_bytes());
        self.put_numbers(numbers);
    }

    pub(crate) fn put_places(&mut self, places: &[[u8; 2]])
        requires { HasRoom self.old (places_bytes (map nat16 places.now)) }
        ensures { Lays self.old (places_bytes (map nat16 places.now)) self.new }
    {
        let bytes = places.as_flattened();
        self.put(bytes);
    }

    // Beside places, since at any N a proof does not know that each item has N bytes.
    fn put_premises(&mut self, premises: &[[u8; 4]])
        requires { HasRoom self.old (premises_bytes (map premise_in premises.now)) }
        ensures { Lays self.old (premises_bytes (map premise_in premises.now)) self.new }
    {
        let bytes = premises.as_flattened();
        self.put(bytes);
    }

    pub(crate) fn put_line(&mut self, line: &Line<'_>)
        requires counted { length (line_of line.now).premises ≤ 255 }
        requires room { HasRoom self.old (line_bytes (line_of line.now)) }
        ensures { Lays self.old (line_bytes (line_of line.now)) self.new }
    {
        self.put(&[line.premises.len() as u8]);
        self.put_premises(line.premises.items);
        self.put(&line.divisor.to_le_bytes());
    }

    pub(crate) fn put_lines(&mut self, lines: Lines<'_>)
        requires counted { lines_counted (lines_of lines) ≡ true }
        requires room { HasRoom self.old (lines_bytes (lines_of lines)) }
        ensures { Lays self.old (lines_bytes (lines_of lines.entry)) self.new }
    {
        for line in lines {
            self.put_line(&line);
        }
    }
}

// A bit for each number that is not 0, the first lowest.
fn map_of(numbers: &[i32]) -> u16
    requires { length numbers.now ≤ 16 }
    ensures { result ≡ map_of numbers.now }
{
    numbers
        .iter()
        .rev()
        .fold(0, |map, number| map << 1 | u16::from(*number != 0))
}
