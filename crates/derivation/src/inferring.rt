// The step that adds a rule's conclusion.
ghost use Rattle.std.specs.Prelude.{◌≡◌, ℕ, true, List, [], ◌∷◌, ◌++◌, map, Some};
ghost use Rattle.std.specs.List.{zip};
ghost use Rattle.terms.specs.declared.fault.Cause.TheVariants.{NoSuchPlace, PlaceNotVariable, PremiseNotShown};
ghost use Rattle.terms.specs.Faults.{answered, first_fault, first_unless};
ghost use Rattle.theories.specs.Meaning.{Meaning};
ghost use Rattle.law.specs.Bounds.{shown_at};
ghost use Rattle.law.specs.Calls.Call.{infer};
ghost use Rattle.law.specs.Spelt.{places_of};
ghost use Rattle.law.specs.Steps.{both_named, found, named, rule_checks};
ghost use Rattle.derivation.specs.RuleView.{rule_held};
ghost use Rattle.derivation.specs.StateView.{Works};
ghost use Rattle.derivation.specs.TableView.{held_of};

use crate::bounding::{is_empty, stands_for};
use crate::rows::place_of;
use crate::rule::KnownRule;
use crate::state::State;
use crate::table::Table;
use law::premise::Places;
use std::iter;
use terms::checks::{need, need_none};
use terms::difference::Difference;
use terms::fault::{Cause, Fault};

// Whether a place is that of a variable, or none.
fn is_named(n: usize, place: u8) -> bool
    ensures { result ≡ named n place }
{
    (place as usize) < n || 15 < place
}

// n is the table's, as in bounding.
fn are_named(n: usize, d: &Difference) -> bool
    ensures { result ≡ both_named n d.now }
{
    is_named(n, d.first) && is_named(n, d.second)
}

impl KnownRule {
    // Refuses at the first premise, or at the conclusion after them, that has a place of no variable.
    fn check_named(&self, n: usize) -> Result<(), Fault>
        ensures { result ≡ answered (first_unless PlaceNotVariable 0 (map (both_named n) ((rule_held self.now).premises ++ (rule_held self.now).conclusion ∷ []))) }
    {
        need_none(
            self.premises
                .iter()
                .chain(iter::once(&self.conclusion))
                .position(|difference| !are_named(n, difference)),
            Cause::PlaceNotVariable,
        )
    }
}

impl Table {
    // Whether a premise's place is in the table, or is not read.
    fn is_found(&self, d: &Difference, place: usize) -> bool
        ensures { result ≡ found self.now.size (held_of self.now).rows d.now place }
    {
        is_empty(self.size, d) || place < self.len()
    }

    // Whether the row at a place shows a premise; it is not read where the premise's row is empty.
    fn is_shown(&self, d: &Difference, place: usize) -> bool
        ensures { result ≡ shown_at self.now.size (held_of self.now).rows d.now place }
    {
        if is_empty(self.size, d) {
            return 0 <= d.most;
        }
        let row = self.rows.as_slice().get(place);
        row.is_some_and(|row| stands_for(self.size, row, d))
    }

    // Refuses at the first premise whose place is read and not in the table.
    fn check_found(&self, rule: &KnownRule, places: &Places<'_>) -> Result<(), Fault>
        ensures { result ≡ answered (first_unless NoSuchPlace 0 (map (λ q. found self.now.size (held_of self.now).rows q.0 q.1) (zip (rule_held rule.now).premises (places_of places.now)))) }
    {
        need_none(
            rule.premises
                .iter()
                .zip(places.items)
                .position(|(d, item)| !self.is_found(d, place_of(item))),
            Cause::NoSuchPlace,
        )
    }

    // Refuses at the first premise that the row at its place does not show.
    // One function for both checks would have to say more of its closure than it saves.
    fn check_shown(&self, rule: &KnownRule, places: &Places<'_>) -> Result<(), Fault>
        ensures { result ≡ answered (first_unless PremiseNotShown 0 (map (λ q. shown_at self.now.size (held_of self.now).rows q.0 q.1) (zip (rule_held rule.now).premises (places_of places.now)))) }
    {
        need_none(
            rule.premises
                .iter()
                .zip(places.items)
                .position(|(d, item)| !self.is_shown(d, place_of(item))),
            Cause::PremiseNotShown,
        )
    }

    // The checks of a rule, in an open table.
    fn check_rule(&self, rule: &KnownRule, places: &Places<'_>) -> Result<(), Fault>
        ensures { result ≡ answered (first_fault (rule_checks self.now.size (held_of self.now).rows (Some (rule_held rule.now)) (places_of places.now))) }
    {
        rule.check_named(self.size)?;
        need(places.len() == rule.premises.len(), Cause::WrongLength, 0)?;
        need(self.len() < 512, Cause::Full, 0)?;
        self.check_found(rule, places)?;
        self.check_shown(rule, places)
    }
}

impl State {
    // The rule's conclusion joins the table, where rows at the places show its premises.
    pub(crate) fn infer(&mut self, rule: &KnownRule, places: &Places<'_>) -> Result<(), Fault>
        requires { (held_of self.old.table).mark ≡ true }
        ensures { (th : Meaning (List ℕ)) (clue : List ℕ) → th.rule clue ≡ Some (rule_held rule.now) → Works th self.old (infer clue (places_of places.now)) self.new result }
    {
        self.table.check_rule(rule, places)?;
        let Some(row) = rule.conclusion.row(self.table.size) else {
            unreachable()
        };
        self.table.push(row);
        Ok(())
    }
}
