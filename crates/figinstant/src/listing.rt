// A job in words, for whoever writes its rules.
use files::reader::JobFile;
use files::theory::FileTheory;
use std::{fmt, io};
use terms::row::Row;
use theories::parts::{Batch, Call};

// What is written in words, as a part of a job of n variables.
trait InWords {
    fn write<W: fmt::Write>(&self, n: usize, f: &mut fmt::Formatter<W>) -> fmt::Result;
}

#[derive(Clone, Copy)]
struct Part<'a, T> {
    n: usize,
    part: &'a T,
}

impl<T: InWords> fmt::Display for Part<'_, T> {
    fn fmt<W: fmt::Write>(&self, f: &mut fmt::Formatter<W>) -> fmt::Result {
        self.part.write(self.n, f)
    }
}

// Line by line, where a value would print itself as one.
// The theory, the variables with their costs, the rows as inequalities, and the theory's parts.
pub fn print_job(rt: &impl Print, file: &JobFile) -> io::Result<()> {
    // Here and below the cases are closed, and each prints something else.
    let theory = match file.theory {
        FileTheory::Bare => "bare",
        FileTheory::Shared(_) => "shared results",
        FileTheory::OneVat(_) => "one vat",
    };
    println!(rt; "theory {theory}")?;
    for (i, cost) in file.job.costs().iter().enumerate() {
        println!(rt; "variable v{i} cost {cost}")?;
    }
    let n = file.job.size();
    print_each(rt, "row", n, file.job.rows())?;
    match &file.theory {
        FileTheory::Bare => Ok(()),
        FileTheory::Shared(theory) => print_each(rt, "call", n, theory.calls()),
        FileTheory::OneVat(theory) => print_each(rt, "batch", n, theory.batches()),
    }
}

// A line for each part: its kind, its number, and the part in words.
fn print_each<T: InWords>(rt: &impl Print, kind: &str, n: usize, parts: &[T]) -> io::Result<()> {
    for (i, part) in parts.iter().enumerate() {
        let part = Part { n, part };
        println!(rt; "{kind} {i}: {part}")?;
    }
    Ok(())
}

// The sum of the terms, and the right side.
impl InWords for Row {
    fn write<W: fmt::Write>(&self, n: usize, f: &mut fmt::Formatter<W>) -> fmt::Result {
        let mut first = true;
        for (variable, coefficient) in self.coefficients.items.iter().take(n).enumerate() {
            if *coefficient != 0 {
                let sign = sign(first, *coefficient < 0);
                let term = Term {
                    size: coefficient.unsigned_abs(),
                    variable,
                };
                write!(f, "{sign}{term}")?;
                first = false;
            }
        }
        if first {
            write!(f, "0")?;
        }
        let right = self.right;
        write!(f, " <= {right}")
    }
}

// The sign of a term, which stands off from the terms before it.
fn sign(first: bool, negative: bool) -> &'static str {
    match (first, negative) {
        (true, true) => "-",
        (true, false) => "",
        (false, true) => " - ",
        (false, false) => " + ",
    }
}

// A term without its sign.
#[derive(Clone, Copy)]
struct Term {
    size: u32,
    variable: usize,
}

impl fmt::Display for Term {
    fn fmt<W: fmt::Write>(&self, f: &mut fmt::Formatter<W>) -> fmt::Result {
        let size = self.size;
        let variable = self.variable;
        if size == 1 {
            write!(f, "v{variable}")
        } else {
            write!(f, "{size} v{variable}")
        }
    }
}

// As `f5(v0, v1) = v2`; a second argument that is absent is left out.
impl InWords for Call {
    fn write<W: fmt::Write>(&self, n: usize, f: &mut fmt::Formatter<W>) -> fmt::Result {
        let function = self.function;
        let first = Place::new(n, self.first);
        write!(f, "f{function}({first}")?;
        if self.second < 16 {
            let second = Place::new(n, self.second);
            write!(f, ", {second}")?;
        }
        let result = Place::new(n, self.result);
        write!(f, ") = {result}")
    }
}

// As `starts at v0, takes 3`.
impl InWords for Batch {
    fn write<W: fmt::Write>(&self, n: usize, f: &mut fmt::Formatter<W>) -> fmt::Result {
        let start = Place::new(n, self.start);
        let duration = self.duration;
        write!(f, "starts at {start}, takes {duration}")
    }
}

// A variable, or 0 at a place that no variable has.
#[derive(Clone, Copy)]
struct Place(Option<u8>);

impl Place {
    fn new(n: usize, place: u8) -> Place {
        Place(Some(place).filter(|place| usize::from(*place) < n))
    }
}

impl fmt::Display for Place {
    fn fmt<W: fmt::Write>(&self, f: &mut fmt::Formatter<W>) -> fmt::Result {
        match self.0 {
            Some(place) => write!(f, "v{place}"),
            None => write!(f, "0"),
        }
    }
}
