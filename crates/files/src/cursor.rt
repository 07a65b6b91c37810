// How far a file of records is read.
ghost use Rattle.std.specs.Prelude.{◌≡◌, ◌+◌, ◌-◌, ◌<◌, ◌≤◌, length, MatchResult, ◌==◌};
ghost use Rattle.std.specs.Prelude.{true, nat_le, Err};
ghost use Rattle.terms.specs.declared.fault.Cause.TheVariants.{FileTooLong, TrailingBytes};
ghost use Rattle.terms.specs.Faults.{answered, unless};
ghost use Rattle.files.specs.Places.{placed};

use crate::fault::{File, FileFault};
use crate::place::at;
use terms::checks::need;
use terms::fault::{Cause, Fault};

// The record that comes next: its number, and the bytes from it on, of a file of so many bytes.
#[derive(Clone, Copy)]
pub(crate) struct Cursor<'a> {
    pub(crate) file: File,
    pub(crate) total: usize,
    pub(crate) nth: usize,
    pub(crate) bytes: &'a [u8],
    ghost counted: { nth + length bytes.now ≤ total },
}

impl<'a> Cursor<'a> {
    // At the first record of a file, which has at most 65,536 bytes.
    pub(crate) fn open(file: File, bytes: &'a [u8]) -> Result<Cursor<'a>, FileFault>
        ensures { MatchResult result (λ c. (c.file ≡ file) × (c.total ≡ length bytes.now) × (c.nth ≡ 0) × (c.bytes.now ≡ bytes.now) × (nat_le (length bytes.now) 65536 ≡ true)) (λ f. Err f ≡ placed file 0 0 (answered (unless (nat_le (length bytes.now) 65536) FileTooLong 0))) }
    {
        let cursor = Cursor {
            file,
            total: bytes.len(),
            nth: 0,
            bytes,
        };
        cursor.place(need(bytes.len() <= 65_536, Cause::FileTooLong, 0))?;
        Ok(cursor)
    }

    // An answer to this record: its fault gains the record's place.
    pub(crate) fn place<T>(&self, answer: Result<T, Fault>) -> Result<T, FileFault>
        ensures { result ≡ placed self.now.file self.now.nth (self.now.total - length self.now.bytes.now) answer }
    {
        at(answer, self.file, self.nth, self.total - self.bytes.len())
    }

    // The next record begins with these bytes.
    pub(crate) fn pass(&mut self, rest: &'a [u8])
        requires { length rest.now < length self.old.bytes.now }
        ensures place { (self.new.file ≡ self.old.file) × (self.new.total ≡ self.old.total) × (self.new.nth ≡ self.old.nth + 1) }
        ensures bytes { self.new.bytes.now ≡ rest.now }
    {
        self.nth += 1;
        self.bytes = rest;
    }

    // Refuses where bytes are left after the last record.
    pub(crate) fn end(&self) -> Result<(), FileFault>
        ensures { result ≡ placed self.now.file self.now.nth (self.now.total - length self.now.bytes.now) (answered (unless (length self.now.bytes.now == 0) TrailingBytes 0)) }
    {
        self.place(need(self.bytes.is_empty(), Cause::TrailingBytes, 0))
    }
}
