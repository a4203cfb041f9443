//! The second kind of case, `solve SHAPE ALLOWANCE RECORDS FORM TARGET PART ..`: a procedure set is
//! solved, and a form is looked at under its formulas.
use crate::fault::Fault;
use crate::list::write_list;
use crate::rule::{MOST_EFFECTS, Shape, Trial};
use crate::words::Words;
use formulas::fault::Overflow;
use formulas::formula::Formula;
use formulas::procedure_set::ProcedureSet;
use formulas::solution::Solution;
use formulas::symbol::{PROCEDURES, Symbol};
use formulas::winning_set::winning_set;
use foundation::effect_set::EffectSet;
use foundation::refusal::Refusal;
use rules::rule::OrderRule;
use rules::table::EffectTable;
use std::alloc::Global;
use std::fmt;

#[derive(Drop)]
pub struct SolveCase {
    pub shape: Shape,
    allowance: u32,
    /// The records of the procedure set, as bytes.
    records: Vec<u8>,
    form: Vec<Symbol>,
    /// The effects that the field wants.
    target: EffectSet,
}

/// What came of a case that was solved.
#[derive(Drop)]
pub struct SolveOutcome {
    effects: usize,
    set: ProcedureSet,
    solution: Solution,
    form: Result<Formula, Overflow>,
    wins: EffectSet,
}

impl SolveCase {
    /// Reads what comes after the word that names the kind.
    // No `FromStr`, as at `Shape::read`.
    pub fn read(words: &mut Words<'_>) -> Result<SolveCase, Fault> {
        let shape_name = words.word()?;
        let allowance = words.number::<u32>()?;
        let records = words.bytes()?;
        let form = read_form(words)?;
        let target = set_of(words.number::<u64>()?);
        let shape = Shape::read(shape_name, words)?;
        Ok(SolveCase {
            shape,
            allowance,
            records,
            form,
            target,
        })
    }
}

fn read_form(words: &mut Words<'_>) -> Result<Vec<Symbol>, Fault> {
    words
        .bytes()?
        .iter()
        .map(|byte| Symbol::try_from(*byte).map_err(|_| Fault::Malformed))
        .try_collect(words.heap())
}

/// The set whose members are the set bits of a number.
fn set_of(bits: u64) -> EffectSet {
    (0..MOST_EFFECTS)
        .filter(|k| bits >> *k & 1 == 1)
        .fold(EffectSet::empty(), |set, k| set.with(k))
}

impl Trial for SolveCase {
    type Outcome = SolveOutcome;

    fn under<R: OrderRule>(&self, heap: Global, rule: &R) -> Result<SolveOutcome, Fault>
    where
        R::Effect: Clone,
    {
        let set = ProcedureSet::read(self.records.as_slice()).map_err(Refusal::from)?;
        let mut slice = vec![in heap; rule.neutral(); usize::from(MOST_EFFECTS)]?;
        let table = EffectTable::of(rule, slice.as_mut_slice()).map_err(Refusal::from)?;
        let solution = Solution::of(&set, &table, self.allowance).map_err(Refusal::from)?;
        let form = self.form.as_slice();
        Ok(SolveOutcome {
            effects: table.effects(),
            set,
            solution,
            form: solution.form_formula(&table, form),
            wins: winning_set(&table, &solution, self.target, form),
        })
    }
}

impl fmt::Display for SolveOutcome {
    fn fmt<W: fmt::Write>(&self, f: &mut fmt::Formatter<W>) -> fmt::Result {
        let rounds = self.solution.round();
        write!(f, "effects {} rounds {rounds} formulas ", self.effects)?;
        write_formulas(&self.set, &self.solution, f)?;
        write!(f, " form ")?;
        match &self.form {
            Ok(formula) => write_list(formula.clauses().iter(), f)?,
            Err(_) => write!(f, "overflow")?,
        }
        write!(f, " wins {}", self.wins)
    }
}

/// The formula of each procedure that has a record, by number.
// No plainer by `write_list`: a number with its formula would need a type and a `Display` of its own.
fn write_formulas<W: fmt::Write>(
    set: &ProcedureSet,
    solution: &Solution,
    f: &mut fmt::Formatter<W>,
) -> fmt::Result {
    let recorded = (0..PROCEDURES).filter(|p| set.owner(*p).is_some());
    for (i, p) in recorded.enumerate() {
        let semicolon = if i == 0 { "" } else { ";" };
        write!(f, "{semicolon}{p}:")?;
        write_list(solution.formula(p).clauses().iter(), f)?;
    }
    Ok(())
}
