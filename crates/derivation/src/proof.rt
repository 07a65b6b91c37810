// A proof: what it holds, and its theory.
use crate::state::State;

#[derive(Drop)]
pub struct Proof<T> {
    pub(crate) state: State,
    pub(crate) theory: T,
}
