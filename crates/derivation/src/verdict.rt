// What closing a proof says, and how it is printed.
ghost use Rattle.std.specs.Prelude.{Some};
ghost use Rattle.law.specs.NumbersView.{values_of};
ghost use Rattle.derivation.specs.VerdictText.{plan_text, verdict_text};

use law::numbers::Numbers;
use std::fmt;

// It has no equality, since equal numbers may differ past their count.
// The plan taken and its cost, than which no model is cheaper; no model; or the plan taken so far, if any.
#[derive(Clone, Copy, Debug)]
pub enum Verdict {
    Least(Numbers, i64),
    NoModel,
    Unfinished(Option<Numbers>),
}

// `least` and the cost, `none` or `unfinished`; and a line below it the plan taken, if one is.
impl fmt::Display for Verdict {
    ghost output = { λ verdict. Some (verdict_text verdict) };

    fn fmt<W: fmt::Write>(&self, f: &mut fmt::Formatter<W>) -> fmt::Result {
        match self {
            Verdict::Least(plan, cost) => write!(f, "least {cost}\n{}", PlanLine(plan)),
            Verdict::NoModel => write!(f, "none"),
            Verdict::Unfinished(None) => write!(f, "unfinished"),
            Verdict::Unfinished(Some(plan)) => write!(f, "unfinished\n{}", PlanLine(plan)),
        }
    }
}

// `plan` and its values.
#[derive(Clone, Copy)]
struct PlanLine<'a>(&'a Numbers);

impl fmt::Display for PlanLine<'_> {
    ghost output = { λ line. Some (plan_text (values_of line.0.now)) };

    fn fmt<W: fmt::Write>(&self, f: &mut fmt::Formatter<W>) -> fmt::Result {
        write!(f, "plan")?;
        for value in self.0.values() {
            write!(f, " {value}")?;
        }
        Ok(())
    }
}
