// How rows bound variables, and the point at which they hold all of them.
ghost use Rattle.std.specs.Prelude.{◌≡◌, ◌+◌, ◌*◌, ◌<◌, ◌≤◌, map, length, take, Some, None, MatchResult, slice_index};
ghost use Rattle.terms.specs.Faults.{answered, first_fault};
ghost use Rattle.terms.specs.Rows.{meets};
ghost use Rattle.terms.specs.Stored.{row_of};
ghost use Rattle.theories.specs.Pairs.{every};
ghost use Rattle.law.specs.Bounds.{bound, held_at, only_value};
ghost use Rattle.law.specs.Calls.Call.{pin};
ghost use Rattle.law.specs.Lines.{places_check, row_at};
ghost use Rattle.law.specs.Spelt.{places_of};
ghost use Rattle.law.specs.Steps.{shuts_at};
ghost use Rattle.derivation.specs.Pinned.{Fixes, Pinned, fixed_check, fixed_checks};
ghost use Rattle.derivation.specs.ProofView.{Does, job_held, meaning_held};
ghost use Rattle.derivation.specs.StateView.{plan_of};
ghost use Rattle.derivation.specs.TableView.{held_of};

use crate::bounding::bound;
use crate::lines::coefficient;
use crate::proof::Proof;
use crate::rows::place_of;
use crate::state::State;
use crate::table::Table;
use law::premise::Places;
use terms::checks::{need, need_none};
use terms::difference::Difference;
use terms::fault::{Cause, Fault};
use terms::row::{Coefficients, Row};
use theories::theory::Theory;

// The value that two bounds leave, if it is one within 1,000,000 of zero.
fn only_value(above: Option<i64>, below: Option<i64>) -> Option<i32>
    ensures { result ≡ only_value above below }
{
    let value = coefficient(above?)?;
    (below? == -i64::from(value)).then_some(value)
}

// The value at which two rows hold a variable.
// That n is at most 16 is asked of a number alone here, in `chain_row` and `begin`: whoever calls them has it from a table or a job.
fn held_at(n: usize, variable: usize, above: &Row, below: &Row) -> Option<i32>
    requires narrow { n ≤ 16 }
    requires within { variable < n }
    ensures { result ≡ held_at n variable (row_of n above.now) (row_of n below.now) }
{
    let place = variable as u8;
    let most = bound(
        n,
        above,
        &Difference {
            first: place,
            second: 16,
            most: 0,
        },
    );
    let least = bound(
        n,
        below,
        &Difference {
            first: 16,
            second: place,
            most: 0,
        },
    );
    only_value(most, least)
}

impl Table {
    // Refuses at the first place that is not one of the table's.
    pub(crate) fn check_places(&self, places: &Places<'_>) -> Result<(), Fault>
        ensures { result ≡ answered (places_check (held_of self.now).rows (places_of places.now)) }
    {
        need_none(
            places
                .items
                .iter()
                .position(|item| place_of(item) >= self.len()),
            Cause::NoSuchPlace,
        )
    }

    // The value at which the rows of a variable's two places hold it.
    fn held(&self, places: &Places<'_>, variable: usize) -> Option<i32>
        requires within { variable < self.now.size }
        requires long { length (places_of places.now) ≡ 2 * self.now.size }
        requires there { places_check (held_of self.now).rows (places_of places.now) ≡ None }
        ensures { result ≡ held_at self.now.size variable (row_at (held_of self.now).rows (slice_index (places_of places.now) (2 * variable))) (row_at (held_of self.now).rows (slice_index (places_of places.now) (2 * variable + 1))) }
    {
        let above = self.row(place_of(&places.items[2 * variable]));
        let below = self.row(place_of(&places.items[2 * variable + 1]));
        held_at(self.size, variable, &above, &below)
    }

    // The point at which the rows at these places, two for each variable, hold the variables.
    fn point(&self, places: &Places<'_>) -> Result<Coefficients, Fault>
        requires long { length (places_of places.now) ≡ 2 * self.now.size }
        requires there { places_check (held_of self.now).rows (places_of places.now) ≡ None }
        ensures { MatchResult result (λ point. Fixes self.now.size (held_of self.now).rows (places_of places.now) point.items) (λ f. fixed_check self.now.size (held_of self.now).rows (places_of places.now) ≡ Some f) }
    {
        let mut items = [0; 16];
        // `array::try_from_fn` does not tell that the values before a refusal are held.
        for i in 0..self.size {
            items[i] = self.held(places, i).ok_or(Cause::NotFixed.at(i))?;
        }
        Ok(Coefficients { items })
    }

    // Whether a point meets every row.
    fn is_met(&self, point: &Coefficients) -> bool
        ensures { result ≡ every (map (meets (take self.now.size point.now.items)) (held_of self.now).rows) }
    {
        let point = &point.items[..self.size];
        self.rows.as_slice().iter().all(|row| row.is_met(point))
    }
}

impl State {
    // The point of a pin, where none of the checks that no theory has a part in applies.
    fn check_pin(&self, places: &Places<'_>) -> Result<Coefficients, Fault>
        ensures { MatchResult result (λ point. Pinned self.now.table.size (held_of self.now.table).rows (places_of places.now) point.items) (λ f. first_fault (fixed_checks self.now.table.size (held_of self.now.table).rows (places_of places.now)) ≡ Some f) }
    {
        need(places.len() == 2 * self.table.size, Cause::WrongLength, 0)?;
        self.table.check_places(places)?;
        self.table.point(places)
    }
}

impl<T: Theory> Proof<T> {
    // Whether a point misses a row, is not admitted, or costs no less than the plan taken.
    fn shuts_at(&self, point: &Coefficients) -> bool
        ensures { result ≡ shuts_at (job_held self.now) (meaning_held T.Theory.reads T.Theory.means self.now) (held_of self.now.state.table).rows (plan_of self.now.state.table.size self.now.state.taken) (take self.now.state.table.size point.now.items) }
    {
        !self.state.table.is_met(point)
            || !self.theory.admitted(&point.items[..self.state.table.size])
            || !self.state.is_cheaper(point)
    }

    // Shuts the current subproblem by the one point that rows at these places, two for each variable, leave in it.
    pub fn pin(&mut self, places: Places<'_>) -> Result<(), Fault>
        ensures { Does T.Theory.reads T.Theory.means self.old (pin (places_of places.entry)) self.new result }
    {
        self.state.table.check_open()?;
        let point = self.state.check_pin(&places)?;
        need(self.shuts_at(&point), Cause::PointStaysOpen, 0)?;
        self.state.table.shut();
        Ok(())
    }
}
