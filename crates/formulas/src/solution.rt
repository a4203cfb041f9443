//! Solving a procedure set under a rule: rounds until one is equal to the one before it.
ghost use Rattle.std.specs.Prelude.{◌≡◌, List, IfOk};
ghost use Rattle.std.specs.List.{list_all};
ghost use Rattle.rules.specs.Surveys.{view};
ghost use Rattle.formulas.specs.Equations.{SettledLists, MeetsByTrees};
ghost use Rattle.formulas.specs.FormulaViews.{formula_list, found};
ghost use Rattle.formulas.specs.Records.{entries};
ghost use Rattle.formulas.specs.Rounds.{first_round, formula_at, body_formula};
ghost use Rattle.formulas.specs.Searches.{first_bad};
ghost use Rattle.formulas.specs.Solutions.{settled_of, solution_viewed};
ghost use Rattle.formulas.specs.Solving.{known, known_body, settle, solved, Solved};
ghost use Rattle.formulas.specs.Symbols.{Entry};

use crate::fault::{Overflow, SolveFault};
use crate::formula::Formula;
use crate::problem::Problem;
use crate::procedure_set::ProcedureSet;
use crate::round::Round;
use crate::symbol::{Procedure, Symbol};
use crate::winning_set::{ClauseLists, each_meets};
use foundation::effect_set::EffectSet;
use rules::table::EffectTable;
use std::marker::Model;

/// How many rounds can be allowed.
pub const MOST_ROUNDS: u32 = 1000;

/// The first round that is equal to the one before it, with its number.
#[derive(Clone, Copy)]
pub struct Solution {
    round: Round,
    number: u32,
}

// The model has the fields as they are. Without one a `?`, or another generic call, gets no proof in a crate
// above, as at any type that holds an array of values with a model.
impl Model for Solution {
    ghost use Rattle.formulas.specs.Solutions.{SolutionSeen};

    ghost Value = { SolutionSeen };

    ghost view = { λ s. record { round = s.round; number = s.number } };

    ghost inverse = { λ v. record { round = v.round; number = v.number } };
}

impl Solution {
    /// Solves within an allowance of rounds.
    pub fn of(
        set: &ProcedureSet,
        table: &EffectTable,
        allowance: u32,
    ) -> Result<Solution, SolveFault>
        ensures value { solution_viewed result ≡ solved (entries set.now) (view table.now) allowance }
        ensures words { Solved (entries set.now) (view table.now) allowance (solution_viewed result) }
    {
        if allowance == 0 || allowance > MOST_ROUNDS {
            return Err(SolveFault::Allowance);
        }
        if let Some(record) = first_lacking(set, table.commands()) {
            return Err(SolveFault::UnknownCommand(record));
        }
        settle_within(&Problem { set, table }, allowance)
    }

    /// The number of the settled round.
    pub fn round(&self) -> u32
        ensures { result ≡ (settled_of self.now).number }
    {
        self.number
    }

    /// The formula of a form. It has none where a clause too many would stand on the way.
    pub fn form_formula(&self, table: &EffectTable, form: &[Symbol]) -> Result<Formula, Overflow>
        ensures value { found result ≡ body_formula 64 (view table.now) (settled_of self.now).formulas form.now }
        ensures trees { (rs : List Entry) → SettledLists rs (view table.now) (formula_at (settled_of self.now).formulas) → IfOk result (λ f. MeetsByTrees rs (view table.now) form.now (formula_list f)) }
    {
        self.round.body_formula(table, form)
    }

    /// The settled formula of a procedure; a number that is none's has the impossible one.
    pub fn formula(&self, p: Procedure) -> Formula
        ensures { formula_list result ≡ formula_at (settled_of self.now).formulas p }
    {
        self.round.formula(p)
    }
}

impl ClauseLists for Solution {
    ghost lists = { λ s x. formula_at (settled_of s).formulas x };

    fn all_meet(&self, p: Procedure, set: EffectSet) -> bool {
        each_meets(self.formula(p).clauses(), set)
    }
}

fn settle_within(problem: &Problem<'_>, allowance: u32) -> Result<Solution, SolveFault>
    ensures { solution_viewed result ≡ settle (entries problem.now.set.now) (view problem.now.table.now) allowance 0 first_round }
{
    let mut round = Round::first();
    for done in 0..allowance {
        let next = round.next(problem)?;
        if next == round {
            return Ok(Solution {
                round: next,
                number: done + 1,
            });
        }
        round = next;
    }
    Err(SolveFault::Unsettled(allowance))
}

/// The first record whose body has a command that a rule with so many commands lacks.
fn first_lacking(set: &ProcedureSet, commands: u8) -> Option<usize>
    ensures { result ≡ first_bad (known_body commands) 0 (entries set.now) }
{
    set.records()
        .iter()
        .position(|record| !all_known(record.body(), commands))
}

fn all_known(body: &[Symbol], commands: u8) -> bool
    ensures { result ≡ list_all (known commands) body.now }
{
    body.iter().all(|symbol| is_known(*symbol, commands))
}

fn is_known(symbol: Symbol, commands: u8) -> bool
    ensures { result ≡ known commands symbol }
{
    match symbol {
        Symbol::Command(c) => c < commands,
        Symbol::Procedure(_) => true,
    }
}
