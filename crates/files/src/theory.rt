// The theory that a job file names.
use theories::one_vat::OneVat;
use theories::shared_results::SharedResults;

// A theory, with the calls or the batches that it has.
#[derive(Drop)]
pub enum FileTheory {
    Bare,
    Shared(SharedResults),
    OneVat(OneVat),
}
