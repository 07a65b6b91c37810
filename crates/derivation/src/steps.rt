// The steps of a proof. Each is accepted exactly when none of its checks applies, and a refused one changes nothing.
// What no theory has a part in is a method of `State`, proved once and not for each theory.
ghost use Rattle.law.specs.Calls.Call.{branch, chain, cut, cutoff, drop, infer, take};
ghost use Rattle.law.specs.Spelt.{line_of, lines_of, places_of};
ghost use Rattle.derivation.specs.ProofView.{Does};

use crate::asking::read_rule;
use crate::proof::Proof;
use law::premise::{Line, Lines, Places};
use terms::checks::need;
use terms::fault::{Cause, Fault};
use theories::theory::Theory;

impl<T: Theory> Proof<T> {
    // Splits the current subproblem by a row: it joins, and its opposite waits.
    pub fn branch(&mut self, coefficients: &[i32], right: i64) -> Result<(), Fault>
        ensures { Does T.Theory.reads T.Theory.means self.old (branch (record { coefficients = coefficients.entry.now; right = right })) self.new result }
    {
        self.state.branch(coefficients, right)
    }

    // Adds the row that a line makes of rows of the table.
    pub fn cut(&mut self, line: &Line<'_>) -> Result<(), Fault>
        ensures { Does T.Theory.reads T.Theory.means self.old (cut (line_of line.now)) self.new result }
    {
        self.state.cut(line)
    }

    // Adds the row that the last of some lines makes, each line having the rows of those before it.
    pub fn chain(&mut self, lines: Lines<'_>) -> Result<(), Fault>
        ensures { Does T.Theory.reads T.Theory.means self.old (chain (lines_of lines.entry)) self.new result }
    {
        self.state.chain(lines)
    }

    // Adds the conclusion of a clue's rule, whose premises rows at these places show.
    pub fn infer(&mut self, clue: &[u8], places: &Places<'_>) -> Result<(), Fault>
        ensures { Does T.Theory.reads T.Theory.means self.old (infer clue.now (places_of places.now)) self.new result }
    {
        self.state.table.check_open()?;
        let clue = T::clue(clue)?;
        let rule = read_rule(&self.theory, &clue)?;
        self.state.infer(&rule, places)
    }

    // Adds the row that asks for less than the plan taken costs.
    pub fn cutoff(&mut self) -> Result<(), Fault>
        ensures { Does T.Theory.reads T.Theory.means self.old cutoff self.new result }
    {
        self.state.cutoff()
    }

    // Takes a model of the job that is cheaper than the plan taken; the subproblem stays open.
    pub fn take(&mut self, values: &[i32]) -> Result<(), Fault>
        ensures { Does T.Theory.reads T.Theory.means self.old (take values.now) self.new result }
    {
        self.state.table.check_open()?;
        let plan = self.state.check_plan(values)?;
        need(self.theory.admitted(values), Cause::NotAdmitted, 0)?;
        need(self.state.is_cheaper(&plan), Cause::NotCheaper, 0)?;
        self.state.taken = Some(plan);
        Ok(())
    }

    // Shuts the current subproblem by a row of it that no plan meets.
    pub fn drop(&mut self, place: usize) -> Result<(), Fault>
        ensures { Does T.Theory.reads T.Theory.means self.old (drop place) self.new result }
    {
        self.state.drop_at(place)
    }
}
