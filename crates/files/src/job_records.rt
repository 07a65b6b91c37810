// The records of a job file, each made in place.
ghost use Rattle.std.specs.Prelude.{◌≡◌};
ghost use Rattle.derivation.specs.JobView.{job_of};
ghost use Rattle.fields.specs.Bytes.{number_read};
ghost use Rattle.files.specs.JobFiles.{batch_of, batch_read, call_of, call_read, row_read, variable_read};
ghost use Rattle.files.specs.JobViews.{leaving, parts_of};
ghost use Rattle.fields.specs.Rest.{with_rest};

use crate::theory::FileTheory;
use derivation::job::Job;
use fields::body::read_body;
use fields::bytes::{file_ends, read};
use fields::letters::out_of_phase;
use terms::fault::Fault;
use theories::parts::{Batch, Call};

// A variable: its cost.
pub(crate) fn read_variable<'a>(job: &mut Job, fields: &'a [u8]) -> Result<&'a [u8], Fault>
    ensures { leaving (job_of job.new) result ≡ variable_read (job_of job.old) fields.now }
{
    let (cost, rest) = read(fields)?;
    job.variable(cost)?;
    Ok(rest)
}

// A row: its relation letter and its body.
pub(crate) fn read_row<'a>(job: &mut Job, fields: &'a [u8]) -> Result<&'a [u8], Fault>
    ensures { leaving (job_of job.new) result ≡ row_read (job_of job.old) fields.now }
{
    let (letter, body) = read::<u8, _>(fields)?;
    let n = job.size();
    let (body, rest) = read_body(n, body)?;
    job.row(&body.numbers[0..n], char::from(letter), body.right)?;
    Ok(rest)
}

// The fields of a call: function, first, second and result.
fn read_call_fields(fields: &[u8]) -> Result<(Call, &[u8]), Fault>
    ensures { with_rest result ≡ number_read 4 call_of fields.now }
{
    let [function, first, second, result, rest @ ..] = fields else {
        return Err(file_ends());
    };
    Ok((Call::from([*function, *first, *second, *result]), rest))
}

// A call of shared results; another theory has no such record.
pub(crate) fn read_call<'a>(theory: &mut FileTheory, fields: &'a [u8]) -> Result<&'a [u8], Fault>
    ensures { leaving (parts_of theory.new) result ≡ call_read (parts_of theory.old) fields.now }
{
    let FileTheory::Shared(calls) = theory else {
        return Err(out_of_phase());
    };
    let (call, rest) = read_call_fields(fields)?;
    calls.add(call)?;
    Ok(rest)
}

// The fields of a batch: start and duration.
fn read_batch_fields(fields: &[u8]) -> Result<(Batch, &[u8]), Fault>
    ensures { with_rest result ≡ batch_of fields.now }
{
    let (start, fields) = read(fields)?;
    let (duration, rest) = read(fields)?;
    Ok((Batch { start, duration }, rest))
}

// A batch of one vat; another theory has no such record. A function for both kinds of part would be told the case and the reader.
pub(crate) fn read_batch<'a>(theory: &mut FileTheory, fields: &'a [u8]) -> Result<&'a [u8], Fault>
    ensures { leaving (parts_of theory.new) result ≡ batch_read (parts_of theory.old) fields.now }
{
    let FileTheory::OneVat(batches) = theory else {
        return Err(out_of_phase());
    };
    let (batch, rest) = read_batch_fields(fields)?;
    batches.add(batch)?;
    Ok(rest)
}
