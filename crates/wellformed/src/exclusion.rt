// What row 10 asks of one command: its labels, what it adds to the two matrices of the survey, and what stands before its
// second part. Functions without recursion.
ghost use Rattle.spec_base.specs.Limits.{label_count};
ghost use Rattle.spec_base.specs.Sets.{none};
ghost use Rattle.spec_base.specs.Widths.{only_below};
ghost use Rattle.labels.specs.Labels.{label_set};
ghost use Rattle.wellformed.specs.Rows.{add_row_below, Updates};
ghost use Rattle.wellformed.specs.Exclusion.{Carries, Joins, BeginsSecond};

use crate::matrix::Matrix;
use labels::Labels;

// What stands before a statement: the pauses exclusive with it, and the pauses and setpauses on another side of a parallel.
#[derive(Clone, Copy, Debug, PartialEq, Eq)]
pub struct Before {
    pub exclusive: Labels,
    pub concurrent: Labels,
}

// A statement that was passed: the offset behind it, the labels of its pauses, and those of its pauses and setpauses.
#[derive(Clone, Copy, Debug, PartialEq, Eq)]
pub struct Walked {
    pub end: usize,
    pub pauses: Labels,
    pub triggers: Labels,
}

// What a command without labels gives.
pub fn at_other(end: usize) -> Walked
    ensures { Carries result end none none }
{
    let none = labels::empty();
    Walked {
        end,
        pauses: none,
        triggers: none,
    }
}

// A label outside the width has no row and is in no set.
pub fn at_pause(
    l: u8,
    end: usize,
    before: Before,
    exclusive: &mut Matrix,
    concurrent: &mut Matrix,
) -> Walked
    ensures labels { Carries result end (only_below label_count l) (only_below label_count l) }
    ensures excludes { Updates (add_row_below label_count l (label_set before.exclusive))
        exclusive.old exclusive.new }
    ensures sides { Updates (add_row_below label_count l (label_set before.concurrent))
        concurrent.old concurrent.new }
{
    crate::matrix::add_row(exclusive, l, before.exclusive);
    crate::matrix::add_row(concurrent, l, before.concurrent);
    let one = labels::single(l);
    Walked {
        end,
        pauses: one,
        triggers: one,
    }
}

pub fn at_setpause(l: u8, end: usize, before: Before, concurrent: &mut Matrix) -> Walked
    ensures labels { Carries result end none (only_below label_count l) }
    ensures sides { Updates (add_row_below label_count l (label_set before.concurrent))
        concurrent.old concurrent.new }
{
    crate::matrix::add_row(concurrent, l, before.concurrent);
    Walked {
        end,
        pauses: labels::empty(),
        triggers: labels::single(l),
    }
}

// What stands before the second part of a command, whose first part was passed.
pub fn before_second(parallel: bool, before: Before, first: Walked) -> Before
    ensures { BeginsSecond parallel before first result }
{
    let exclusive = before.exclusive;
    let concurrent = before.concurrent;
    if parallel {
        Before {
            exclusive,
            concurrent: labels::union(concurrent, first.triggers),
        }
    } else {
        Before {
            exclusive: labels::union(exclusive, first.pauses),
            concurrent,
        }
    }
}

// Two parts that were passed, as one.
pub fn joined(p: Walked, q: Walked) -> Walked
    ensures { Joins p q result }
{
    Walked {
        end: q.end,
        pauses: labels::union(p.pauses, q.pauses),
        triggers: labels::union(p.triggers, q.triggers),
    }
}
