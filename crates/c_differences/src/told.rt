// What is told of a program.

ghost use Rattle.std.specs.Prelude.{◌≡◌, ◌==◌, length, IfOk};
ghost use Rattle.c_meaning.specs.Same.{same_program};
ghost use Rattle.c_differences.specs.Told.{AreTold};

use crate::constants::Numbers;
use crate::difference::{Difference, InC, Reason};
use crate::literal::Type;
use crate::stream::Stream;
use crate::walk::Walk;
use base::tree::{Place, Program};
use c_meaning::is_same_in_c;
use c_read::source_written;
use std::alloc::{AllocError, Global};

/// How often a temporary is looked for among all tokens.
const MOST_QUESTIONS: u32 = 1024;

/// The expressions of a program that may have another value in C, in their order.
#[derive(Drop)]
pub struct Differences {
    pub list: Vec<Difference>,
    /// Each number is written as a decimal without a suffix, `printf` prints none of a type with 32 bits, and no loop's
    /// name, no temporary with one in it, and no scalar is of the type `int` or `bool`.
    pub plain: bool,
}

// That something is different, where no place of it is known.
fn somewhere() -> Difference {
    Difference {
        place: Place { line: 1, column: 1 },
        reason: Reason::Other,
        ctype: Type::Int,
        in_c: InC::Unknown,
        here: None,
        operand: None,
    }
}

// What is told of a program whose numbers are all decimals without a suffix, where these were found.
fn settled(
    alloc: Global,
    program: &Program,
    found: Vec<Difference>,
) -> Result<Vec<Difference>, AllocError>
    ensures { IfOk result (λ v. (length v.items == 0) ≡ same_program program.now) }
{
    if is_same_in_c(program) {
        return Ok(Vec::new(alloc));
    }
    let mut list = found;
    if list.is_empty() {
        list.push(somewhere())?;
    }
    Ok(list)
}

/// The expressions of a program that may have another value in C, or none. The bytes are its source. In one whose numbers
/// are all decimals without a suffix they are those of the test of programs; in another one the type of each number is
/// that of its suffix, of its hexadecimal digits, or of the constant that it stands for. The error comes where an
/// allocation fails.
#[tactic(auto, using(crate::proofs::Telling::are_told))]
pub fn differences_of(
    alloc: Global,
    bytes: &[u8],
    program: &Program,
) -> Result<Differences, AllocError>
    ensures { IfOk result (AreTold program.now) }
{
    let tokens = source_written(alloc, bytes)?;
    let numbers = Numbers::new(alloc, bytes)?;
    let mut walk = Walk {
        numbers: &numbers,
        stream: Stream::new(&tokens),
        found: Vec::new(alloc),
        loops: Vec::new(alloc),
        small: Vec::new(alloc),
        questions: MOST_QUESTIONS,
        plain: true,
    };
    walk.parts(&program.body)?;
    let Walk {
        mut found,
        plain,
        ..
    } = walk;
    if numbers.tell_given(&mut found)? || !plain {
        return Ok(Differences {
            list: found,
            plain: false,
        });
    }
    Ok(Differences {
        list: settled(alloc, program, found)?,
        plain: true,
    })
}
