// The job file, read whole.
ghost use Rattle.std.specs.Prelude.{◌≡◌};
ghost use Rattle.derivation.specs.JobView.{job_of};
ghost use Rattle.files.specs.JobFiles.{fields_read, job_file, record_read, start};
ghost use Rattle.files.specs.JobViews.{leaving, parts_of, reading_of, spelt};

use crate::cursor::Cursor;
use crate::fault::{File, FileFault};
use crate::job_records::{read_batch, read_call, read_row, read_variable};
use crate::reader::{JobFile, JobReader};
use crate::records::{Kind, Phase};
use crate::theory::FileTheory;
use derivation::job::Job;
use fields::bytes::file_ends;
use terms::fault::Fault;
use theories::one_vat::OneVat;
use theories::shared_results::SharedResults;

impl JobReader {
    // Nothing is read yet.
    fn new() -> JobReader
        ensures { reading_of result ≡ start }
    {
        JobReader {
            phase: Phase::Start,
            file: JobFile {
                job: Job::new(),
                theory: FileTheory::Bare,
            },
        }
    }

    // The fields of a record of this kind, made in place, and the bytes after them.
    fn fields<'a>(&mut self, kind: Kind, fields: &'a [u8]) -> Result<&'a [u8], Fault>
        ensures { leaving (reading_of self.new) result ≡ fields_read self.old.phase kind (job_of self.old.file.job) (parts_of self.old.file.theory) fields.now }
    {
        // A match says which: the kinds are closed, and each fills something else.
        match kind {
            Kind::Bare => {
                self.file.theory = FileTheory::Bare;
                Ok(fields)
            }
            Kind::Shared => {
                self.file.theory = FileTheory::Shared(SharedResults::new());
                Ok(fields)
            }
            Kind::OneVat => {
                self.file.theory = FileTheory::OneVat(OneVat::new());
                Ok(fields)
            }
            Kind::Variable => read_variable(&mut self.file.job, fields),
            Kind::Row => read_row(&mut self.file.job, fields),
            Kind::Call => read_call(&mut self.file.theory, fields),
            Kind::Batch => read_batch(&mut self.file.theory, fields),
            Kind::End => Ok(fields),
        }
    }

    // One record, made in place, and the bytes after it.
    fn record<'a>(&mut self, bytes: &'a [u8]) -> Result<&'a [u8], Fault>
        ensures { leaving (reading_of self.new) result ≡ record_read (reading_of self.old) bytes.now }
    {
        let [letter, fields @ ..] = bytes else {
            return Err(file_ends());
        };
        let kind = self.phase.step(char::from(*letter))?;
        self.fields(kind, fields)
    }
}

// The job and the theory that a file of at most 65,536 bytes spells, or the first fault with its place.
pub fn read_job(file: &[u8]) -> Result<JobFile, FileFault>
    ensures { spelt result ≡ job_file file.now }
{
    let mut records = Cursor::open(File::Job, file)?;
    let mut reader = JobReader::new();
    while !reader.phase.is_ended() {
        let rest = records.place(reader.record(records.bytes))?;
        records.pass(rest);
    }
    records.end()?;
    let JobReader { phase: _, file } = reader;
    Ok(file)
}
