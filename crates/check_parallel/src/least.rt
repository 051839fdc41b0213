//! The answer that those of the pieces make.

ghost use Rattle.std.specs.Prelude.{◌≡◌, map};
ghost use Rattle.check_parallel.specs.declared.pieces.Verdict.{Verdict as Answers};
ghost use Rattle.check_parallel.specs.Verdicts.{least, lesser as lesser_of};

use crate::pieces::Verdict;
use report_check::CheckFault;

/// The answer to rule 5 that those of the pieces make: want of memory where a piece has none, or else the least line.
pub(crate) fn least_apart(verdicts: &[Verdict]) -> Result<(), CheckFault>
    ensures { result ≡ least (map (λ (v : Answers). v.apart) verdicts.now) }
{
    let mut found = Ok(());
    for verdict in verdicts {
        found = lesser(found, verdict.apart);
    }
    found
}

/// The answer to rule 6.
pub(crate) fn least_filling(verdicts: &[Verdict]) -> Result<(), CheckFault>
    ensures { result ≡ least (map (λ (v : Answers). v.filling) verdicts.now) }
{
    let mut found = Ok(());
    for verdict in verdicts {
        found = lesser(found, verdict.filling);
    }
    found
}

// Of two pieces' answers to one rule: want of memory, or else the lower line that breaks it, or else none.
fn lesser(a: Result<(), CheckFault>, b: Result<(), CheckFault>) -> Result<(), CheckFault>
    ensures { result ≡ lesser_of a b }
{
    match (a, b) {
        (Ok(()), _) => b,
        (Err(CheckFault::NoMemory), _) => a,
        (Err(CheckFault::Broken { .. }), Ok(())) => a,
        (Err(CheckFault::Broken { .. }), Err(CheckFault::NoMemory)) => b,
        (Err(CheckFault::Broken { line, .. }), Err(CheckFault::Broken { line: lower, .. })) => {
            if lower < line { b } else { a }
        }
    }
}
