// The law of derivations: theorems, each the contract of a function that answers nothing.
ghost use Rattle.std.specs.Prelude.{ℕ, List};
ghost use Rattle.theories.specs.Meaning.{Lawful, Meaning, on_bytes};
ghost use Rattle.law.specs.Jobs.{Job};
ghost use Rattle.law.specs.Law.{CanFinish, ClosingTrue, Law, NoModelLost, OneOutcome};
ghost use Rattle.law.specs.Table.{HoldsThePile};

use theories::theory::Theory;

// Every list of calls leads to exactly one moment, the one that the steps give.
pub fn one_outcome()
    ensures { (j : Job) (th : Meaning (List ℕ)) → OneOutcome j th }
{}

// A model that is still wanted lies in an open subproblem, and the plan taken is a model.
pub fn no_model_is_lost()
    ensures { (j : Job) (th : Meaning (List ℕ)) → Lawful th → NoModelLost j th }
{}

// Closing says least, none or unfinished exactly when it should, and it is so.
pub fn closing_is_true()
    ensures { (j : Job) (th : Meaning (List ℕ)) → Lawful th → ClosingTrue j th }
{}

// Where each variable has job rows above and below, some list of accepted calls leaves nothing open.
pub fn boxed_jobs_can_be_finished()
    ensures { (j : Job) (th : Meaning (List ℕ)) → CanFinish j th }
{}

// The whole law, of any job with this theory.
pub fn law_for<T: Theory>(theory: &T)
    ensures { (j : Job) → Law j (on_bytes T.Theory.reads (T.Theory.means theory.now)) }
{}

// A table of rows with waiting heights and a mark stands at every moment for the pile, row for row.
pub fn table_holds_the_pile()
    ensures { (j : Job) (th : Meaning (List ℕ)) → HoldsThePile j th }
{}
