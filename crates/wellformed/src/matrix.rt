// A label set for each label: the rows of a matrix.
ghost use Rattle.std.specs.Prelude.{◌≡◌};
ghost use Rattle.spec_base.specs.Limits.{label_count};
ghost use Rattle.labels.specs.Labels.{label_set};
ghost use Rattle.wellformed.specs.Rows.{row_of, add_row_below, Updates};

use labels::Labels;

pub type Matrix = [Labels; limits::LABEL_COUNT];

// Adds the labels of s to the row of k; a label outside the width has no row.
pub fn add_row(rows: &mut Matrix, k: u8, s: Labels)
    ensures { Updates (add_row_below label_count k (label_set s)) rows.old rows.new }
{
    if k < limits::LABELS {
        let i = k as usize;
        rows[i] = labels::union(rows[i], s);
    }
}

pub fn row(rows: &Matrix, k: u8) -> Labels
    ensures { label_set result ≡ row_of rows.now k }
{
    if k < limits::LABELS {
        rows[k as usize]
    } else {
        labels::empty()
    }
}
