// How a theory is asked for the rule of a clue.
ghost use Rattle.std.specs.Prelude.{◌≡◌, Some, None, MatchResult};
ghost use Rattle.theories.specs.Meaning.{no_rule};
ghost use Rattle.derivation.specs.RuleView.{rule_held};

use crate::rule::KnownRule;
use arrayvec::ArrayVec;
use terms::fault::Fault;
use theories::theory::Theory;

// The rule of a clue, which is asked for part by part.
pub(crate) fn read_rule<T: Theory>(theory: &T, clue: &T::Clue) -> Result<KnownRule, Fault>
    ensures { MatchResult result (λ k. (T.Theory.means theory.now).rule clue.now ≡ Some (rule_held k)) (λ f. ((T.Theory.means theory.now).rule clue.now ≡ None) × (f ≡ no_rule)) }
{
    let count = theory.premises(clue)?;
    let conclusion = theory.conclusion(clue)?;
    let mut premises = ArrayVec::new();
    // By number, as a theory is asked.
    for index in 0..count {
        premises.push(theory.premise(clue, index)?);
    }
    Ok(KnownRule {
        premises,
        conclusion,
    })
}
