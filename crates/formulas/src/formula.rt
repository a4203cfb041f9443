//! Formulas: which sets of effects the field can force, by choices of both sides.
ghost use Rattle.std.specs.Prelude.{◌≤◌, length};
ghost use Rattle.formulas.specs.Clauses.{clause_list};

use crate::clauses::Clauses;
use std::marker::Model;

mod operations;
mod shifting;

/// 1 to 64 clauses, none within another, in rising order. Each clause is a choice of the station, each
/// effect in it one of the field.
#[derive(Clone, Copy)]
pub struct Formula {
    clauses: Clauses,
    ghost some: { 1 ≤ length (clause_list clauses) },
}

// The model has the fields as they are. Without one a `?`, or another generic call, gets no proof in a crate
// above, as at any type that holds an array of values with a model.
impl Model for Formula {
    ghost use Rattle.formulas.specs.FormulaViews.{FormulaSeen};

    ghost Value = { FormulaSeen };

    ghost view = { λ f. record { clauses = f.clauses; some = f.some } };

    ghost inverse = { λ v. record { clauses = v.clauses; some = v.some } };
}
