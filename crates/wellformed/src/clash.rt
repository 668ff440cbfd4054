// Row 10 by two matrices: a label clashes if a label concurrent with it has a pause that is exclusive with its own pause.
ghost use Rattle.std.specs.Prelude.{◌≡◌, true, ◌↔◌};
ghost use Rattle.spec_base.specs.Sets.{member};
ghost use Rattle.labels.specs.Labels.{label_set};
ghost use Rattle.wellformed.specs.Rows.{row_of};
ghost use Rattle.wellformed.specs.Clashes.{InRowOf, RowsOf, ClashIf, Clashes};

use crate::matrix::Matrix;
use labels::Labels;

// Whether k is in the row of some label of s.
fn in_row_of(rows: &Matrix, s: Labels, k: u8) -> bool
    ensures { (result ≡ true) ↔ InRowOf (row_of rows.now) (label_set s) k }
{
    let mut left = s;
    while !labels::is_empty(left) {
        let l = labels::lowest(left);
        if labels::member(crate::matrix::row(rows, l), k) {
            return true;
        }
        left = labels::without(left, l);
    }
    false
}

// The labels that stand in the rows of the labels of s.
fn union_of_rows(rows: &Matrix, s: Labels) -> Labels
    ensures { RowsOf (row_of rows.now) (label_set s) (label_set result) }
{
    let mut all = labels::empty();
    let mut left = s;
    while !labels::is_empty(left) {
        let l = labels::lowest(left);
        all = labels::union(all, crate::matrix::row(rows, l));
        left = labels::without(left, l);
    }
    all
}

// Whether the label k clashes. Only a label of `all` is looked for in other rows.
fn clash(exclusive: &Matrix, concurrent: &Matrix, all: Labels, k: u8) -> bool
    ensures { (result ≡ true) ↔ ClashIf (row_of exclusive.now) (row_of concurrent.now)
        (member k (label_set all) ≡ true) k }
{
    let beside = crate::matrix::row(concurrent, k);
    !labels::disjoint(beside, crate::matrix::row(exclusive, k))
        || (labels::member(all, k) && in_row_of(exclusive, beside, k))
}

// Whether a label of `pauses` clashes. Where only these labels have a row, that is whether any label clashes (`clashes-of-all`).
pub fn any_clash(exclusive: &Matrix, concurrent: &Matrix, pauses: Labels) -> bool
    ensures { Clashes (row_of exclusive.now) (row_of concurrent.now) (label_set pauses) result }
{
    let all = union_of_rows(exclusive, pauses);
    let mut left = pauses;
    while !labels::is_empty(left) {
        let k = labels::lowest(left);
        if clash(exclusive, concurrent, all, k) {
            return true;
        }
        left = labels::without(left, k);
    }
    false
}
