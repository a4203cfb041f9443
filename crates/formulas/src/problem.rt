//! What is solved.
use crate::procedure_set::ProcedureSet;
use rules::table::EffectTable;

/// A procedure set, and the table of the rule under which it is solved.
#[derive(Clone, Copy)]
pub(crate) struct Problem<'a> {
    pub set: &'a ProcedureSet,
    pub table: &'a EffectTable,
}
