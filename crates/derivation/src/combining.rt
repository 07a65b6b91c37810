// The steps that add up rows of the table: cut and chain.
ghost use Rattle.std.specs.Prelude.{◌≡◌, ℕ, List, Some, MatchResult};
ghost use Rattle.terms.specs.Faults.{first_fault};
ghost use Rattle.theories.specs.Meaning.{Meaning};
ghost use Rattle.law.specs.Calls.Call.{chain, cut};
ghost use Rattle.law.specs.Lines.{chain_checks, cut_checks, last_made, made, no_row};
ghost use Rattle.law.specs.Spelt.{line_of, lines_of};
ghost use Rattle.derivation.specs.Joining.{Makes};
ghost use Rattle.derivation.specs.StateView.{Works};
ghost use Rattle.derivation.specs.TableView.{fixed_of, held_of};

use crate::lines::{Numbered, Rows, chain_row, is_between};
use crate::state::State;
use crate::table::Table;
use law::premise::{Line, Lines};
use terms::checks::need;
use terms::fault::{Cause, Fault};
use terms::row::Row;

impl Table {
    // The row of a cut, where none of its checks applies.
    fn check_cut(&self, line: &Line<'_>) -> Result<Row, Fault>
        ensures { MatchResult result (Makes self.now.size (cut_checks (held_of self.now).rows (line_of line.now)) (made (held_of self.now).rows (line_of line.now))) (λ f. first_fault (cut_checks (held_of self.now).rows (line_of line.now)) ≡ Some f) }
    {
        let line = Numbered::new(*line)?;
        need(self.len() < 512, Cause::Full, 0)?;
        let rows = Rows {
            items: self.rows.as_slice(),
            size: self.size,
        };
        rows.make_row(&line)
    }

    // The row of a chain, where none of its checks applies. The rows of its lines stand at the table's end while it is made.
    fn check_chain(&mut self, lines: Lines<'_>) -> Result<Row, Fault>
        ensures held { held_of self.new ≡ held_of self.old }
        ensures fixed { fixed_of self.new ≡ fixed_of self.old }
        ensures outcome { MatchResult result (Makes self.old.size (chain_checks (held_of self.old).rows (lines_of lines.entry)) (last_made no_row (held_of self.old).rows (lines_of lines.entry))) (λ f. first_fault (chain_checks (held_of self.old).rows (lines_of lines.entry)) ≡ Some f) }
    {
        need(is_between(1, 8, lines.count), Cause::WrongLength, 0)?;
        need(self.rows.len() + lines.count <= 512, Cause::Full, 0)?;
        chain_row(&mut self.rows, self.size, lines)
    }
}

impl State {
    // The row that a line makes joins the table.
    pub(crate) fn cut(&mut self, line: &Line<'_>) -> Result<(), Fault>
        ensures { (th : Meaning (List ℕ)) → Works th self.old (cut (line_of line.now)) self.new result }
    {
        self.table.check_open()?;
        let row = self.table.check_cut(line)?;
        self.table.push(row);
        Ok(())
    }

    // The row that the last line makes joins the table.
    pub(crate) fn chain(&mut self, lines: Lines<'_>) -> Result<(), Fault>
        ensures { (th : Meaning (List ℕ)) → Works th self.old (chain (lines_of lines.entry)) self.new result }
    {
        self.table.check_open()?;
        let row = self.table.check_chain(lines)?;
        self.table.push(row);
        Ok(())
    }
}
