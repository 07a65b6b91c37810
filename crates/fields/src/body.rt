// The body of a row in a file.
ghost use Rattle.std.specs.Prelude.{◌≡◌};
ghost use Rattle.fields.specs.Bodies.{body_read};
ghost use Rattle.fields.specs.Rest.{with_rest};

use crate::bytes::read;
use crate::maps::Mapped;
use terms::fault::Fault;

// Sixteen coefficients, as a row has them, of which those past the last variable are 0, and a right side.
#[derive(Clone, Copy, PartialEq, Eq, Debug)]
pub struct Body {
    pub numbers: [i32; 16],
    pub right: i64,
}

// The body of a row of n variables, and the bytes after it.
pub fn read_body(n: usize, bytes: &[u8]) -> Result<(Body, &[u8]), Fault>
    ensures { with_rest result ≡ body_read n bytes.now }
{
    let (mapped, bytes) = Mapped::read(bytes)?;
    let (right, rest) = read::<i64, _>(bytes)?;
    mapped.check(n)?;
    Ok((
        Body {
            numbers: mapped.numbers,
            right,
        },
        rest,
    ))
}
