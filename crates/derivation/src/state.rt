// What a proof holds besides its theory.
use crate::table::Table;
use terms::row::Coefficients;

// The table, the costs of the job's variables, and the plan taken, if one is.
#[derive(Drop)]
pub struct State {
    pub(crate) table: Table,
    pub(crate) costs: Coefficients,
    pub(crate) taken: Option<Coefficients>,
}
