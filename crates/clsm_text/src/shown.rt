//! Rows as the programs write them.
ghost use Rattle.std.specs.Prelude.{Some};
ghost use Rattle.clsm_text.specs.Written.{shown_rows};

use crate::written::RowWords;
use clsm_model::Rows;
use std::fmt;

/// `K=V` for each row, separated by spaces; `empty` where there is no row.
#[derive(Drop)]
pub struct ShownRows<'a>(pub &'a Rows);

impl fmt::Display for ShownRows<'_> {
    ghost output = { λ shown. Some (shown_rows shown.0.now) };

    fn fmt<W: fmt::Write>(&self, f: &mut fmt::Formatter<W>) -> fmt::Result {
        let Some((first, others)) = self.0.as_slice().split_first() else {
            return write!(f, "empty");
        };
        let (key, value) = first;
        let others = RowWords(others);
        write!(f, "{key}={value}{others}")
    }
}
