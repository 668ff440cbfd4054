// Row 10: whether a sequence is well-formed. The labels of triggers (pauses and setpauses) on two sides of a parallel must have no
// exclusive pauses.
ghost use Rattle.labels.specs.Labels.{label_set};
ghost use Rattle.spec_base.specs.Limits.{max_depth};
ghost use Rattle.wellformed.specs.Survey.{Standing};
ghost use Rattle.wellformed.specs.Triggers.{TellsWellFormed};

use crate::matrix::Matrix;
use labels::Labels;

// Whether the statement encoded in s is well-formed. Its pauses are known, and row 9 does not hold of it.
pub fn is_well_formed(s: &[u8], pauses: Labels) -> bool
    requires { Standing max_depth 0 s.now }
    ensures { TellsWellFormed s.now (label_set pauses) result }
{
    let none = labels::empty();
    let mut exclusive: Matrix = [none; limits::LABEL_COUNT];
    let mut concurrent: Matrix = [none; limits::LABEL_COUNT];
    crate::survey::survey(s, &mut exclusive, &mut concurrent);
    !crate::clash::any_clash(&exclusive, &concurrent, pauses)
}
