// How a row's two sides compare.
use terms::fault::{Cause, Fault};

#[derive(Clone, Copy, Debug, PartialEq, Eq)]
pub enum Relation {
    AtMost,
    AtLeast,
    Equal,
}

// The relation that a letter names.
impl TryFrom<char> for Relation {
    ghost use Rattle.std.specs.Prelude.{◌≡◌};
    ghost use Rattle.law.specs.Jobs.{related, relation_of};

    type Error = Fault;

    ghost try_from_gives = { λ letter result. result ≡ related (relation_of letter) };

    fn try_from(letter: char) -> Result<Relation, Fault> {
        match letter {
            'L' => Ok(Relation::AtMost),
            'G' => Ok(Relation::AtLeast),
            'E' => Ok(Relation::Equal),
            _ => Err(Cause::UnknownRelation.into()),
        }
    }
}
