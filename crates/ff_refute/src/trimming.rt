//! Refutations without the steps that nothing rests on.
ghost use Rattle.std.specs.Prelude.{◌≡◌, ℕ, ◌<◌, ◌⊎◌, ◌||◌, ◌++◌, ◌∷◌, [], List, Option, IfOk, length};
ghost use Rattle.std.specs.List.{All};
ghost use Rattle.std.specs.Ordering.{nat_cmp};
ghost use Rattle.std.specs.BTreeSet.{contains};
ghost use Rattle.ff_tables.specs.declared.orders.Order.{Order as OrderSpec};
ghost use Rattle.ff_tables.specs.declared.orders.Order.TheVariants.{Below, Above};
ghost use Rattle.ff_solver.specs.declared.steps.Step.{Step as StepSpec};
ghost use Rattle.ff_solver.specs.Steps.{knows, IsForcedBy, IsDeadBy, Runs};
ghost use Rattle.ff_refute.specs.Telling.{by_of, HaveConstraints};
ghost use Rattle.ff_refute.specs.Trimming.{Has, HasAllOf, HasTerms, IsTermOf, Covers, IsVariableOf, IsLean, IsRestedOn, IsEnough, IsKeptOf};

use ff_solver::Step;
use ff_tables::{Constraint, NoMemory, Order, System};
use std::alloc::Global;
use std::collections::{BTreeSet, VecDeque};

/// What is kept of a branch: its steps, and the variables of their constraints.
#[derive(Drop)]
pub(crate) struct Kept {
    pub(crate) steps: VecDeque<Step>,
    pub(crate) uses: BTreeSet<u32>,
}

// The set gets the variables of the constraint.
fn use_terms(uses: &mut BTreeSet<u32>, con: &Constraint) -> Result<(), NoMemory>
    ensures has { IfOk result (λ _. HasAllOf uses.new uses.old) }
    ensures terms { IfOk result (λ _. HasTerms con.now.terms (length con.now.terms) uses.new) }
    ensures only { IfOk result (λ _. (v : ℕ) → Has uses.new v → Has uses.old v ⊎ IsTermOf con.now.terms (length con.now.terms) v) }
{
    let terms = con.terms.as_slice();
    for j in 0..terms.len() {
        uses.insert(terms[j].var)?;
    }
    Ok(())
}

// The set gets the variables of the constraint with this number.
fn use_by(uses: &mut BTreeSet<u32>, system: &System, by: u32) -> Result<(), NoMemory>
    requires by { by < length system.now.constraints }
    ensures has { IfOk result (λ _. HasAllOf uses.new uses.old) }
    ensures covers { IfOk result (λ _. Covers system.now.constraints by uses.new) }
    ensures only { IfOk result (λ _. (v : ℕ) → Has uses.new v → Has uses.old v ⊎ IsVariableOf system.now.constraints by v) }
{
    use_terms(uses, &system.constraints.as_slice()[by as usize])
}

// The variables of both. It takes a step for each variable of the smaller set.
fn united(first: BTreeSet<u32>, second: BTreeSet<u32>) -> Result<BTreeSet<u32>, NoMemory>
    ensures { IfOk result (λ both. (v : ℕ) → contains nat_cmp both v ≡ (contains nat_cmp first v || contains nat_cmp second v)) }
{
    let mut first = first;
    let mut second = second;
    if first.len() < second.len() {
        second.append(&mut first)?;
        Ok(second)
    } else {
        first.append(&mut second)?;
        Ok(first)
    }
}

// The steps of both, one behind the other. It takes a step for each one of the shorter.
fn joined(first: VecDeque<Step>, second: VecDeque<Step>) -> Result<VecDeque<Step>, NoMemory>
    ensures { IfOk result (λ both. both.items ≡ first.items ++ second.items) }
{
    let mut first = first;
    let mut second = second;
    if first.len() < second.len() {
        while let Some(step) = first.pop_back() {
            second.push_front(step)?;
        }
        Ok(second)
    } else {
        first.append(&mut second)?;
        Ok(first)
    }
}

impl Kept {
    // The constraint is dead.
    fn dead(alloc: Global, system: &System, by: u32) -> Result<Kept, NoMemory>
        requires by { by < length system.now.constraints }
        ensures lean { IfOk result (IsLean system.now.constraints) }
        ensures enough { IfOk result (λ kept. (value : ℕ → Option OrderSpec) (held : List (ℕ × OrderSpec)) → IsDeadBy system.now.constraints (knows value held) by
            → IsEnough system.now.vars system.now.constraints value held kept) }
    {
        let mut uses = BTreeSet::new(alloc);
        use_by(&mut uses, system, by)?;
        let mut steps = VecDeque::new(alloc);
        steps.push_back(Step::Dead(by))?;
        Ok(Kept { steps, uses })
    }

    // The constraint forces the value, which is left out where nothing rests on it.
    fn set(self, system: &System, var: u32, value: Order, by: u32) -> Result<Kept, NoMemory>
        requires by { by < length system.now.constraints }
        ensures lean { IfOk result (λ kept. IsLean system.now.constraints self → IsLean system.now.constraints kept) }
        ensures enough { IfOk result (λ kept. (board : ℕ → Option OrderSpec) (held : List (ℕ × OrderSpec)) → var < system.now.vars
            → IsForcedBy system.now.constraints (knows board held) by var value
            → IsEnough system.now.vars system.now.constraints board ((var, value) ∷ held) self → IsEnough system.now.vars system.now.constraints board held kept) }
    {
        if !self.uses.contains(&var) {
            return Ok(self);
        }
        let mut kept = self;
        use_by(&mut kept.uses, system, by)?;
        kept.steps.push_front(Step::Set { var, value, by })?;
        Ok(kept)
    }

    // Below of the variable is tried. Where one of the two branches doesn't rest on the variable, that one is enough.
    fn fork(var: u32, below: Kept, above: Kept) -> Result<Kept, NoMemory>
        ensures lean { IfOk result (λ kept. (cons : List _) → IsLean cons below → IsLean cons above → IsLean cons kept) }
        ensures enough { IfOk result (λ kept. (vars : ℕ) (cons : List _) (value : ℕ → Option OrderSpec) (held : List (ℕ × OrderSpec)) → var < vars
            → IsEnough vars cons value ((var, Below) ∷ held) below → IsEnough vars cons value ((var, Above) ∷ held) above
            → IsEnough vars cons value held kept) }
    {
        if !below.uses.contains(&var) {
            return Ok(below);
        }
        if !above.uses.contains(&var) {
            return Ok(above);
        }
        let mut steps = joined(below.steps, above.steps)?;
        steps.push_front(Step::Try(var))?;
        let uses = united(below.uses, above.uses)?;
        Ok(Kept { steps, uses })
    }
}

// Keeps the step, if anything that is kept of those after it rests on it.
fn keep(alloc: Global, kept: &mut Vec<Kept>, system: &System, step: Step) -> Result<(), NoMemory>
    requires there { (c : ℕ) → by_of step ≡ Some c → c < length system.now.constraints }
    ensures lean { IfOk result (λ _. All (IsLean system.now.constraints) kept.old.items → All (IsLean system.now.constraints) kept.new.items) }
    ensures kept { IfOk result (λ _. (steps : List StepSpec) → IsKeptOf system.now.vars system.now.constraints steps kept.old.items
        → IsKeptOf system.now.vars system.now.constraints (step ∷ steps) kept.new.items) }
{
    match step {
        Step::Dead(by) => kept.push(Kept::dead(alloc, system, by)?)?,
        Step::Set { var, value, by } => {
            if let Some(last) = kept.pop() {
                kept.push(last.set(system, var, value, by)?)?;
            }
        }
        Step::Try(var) => {
            if let Some(below) = kept.pop() {
                if let Some(above) = kept.pop() {
                    kept.push(Kept::fork(var, below, above)?)?;
                }
            }
        }
    }
    Ok(())
}

/// What is left of a refutation without the values that nothing rests on, and with one branch in place of each try that this branch
/// doesn't rest on. So the constraint of a later step has the variable of each value that is set, and in both branches that of each one
/// that is tried. It goes from the last step to the first; the time is that of a set's look-up for each variable of each constraint, and
/// of moving the smaller of two branches where both are kept.
pub(crate) fn trimmed(
    alloc: Global,
    system: &System,
    steps: &[Step],
) -> Result<VecDeque<Step>, NoMemory>
    requires there { HaveConstraints system.now.constraints steps.now }
    ensures runs { IfOk result (λ kept. (value : ℕ → Option OrderSpec) → Runs system.now.vars system.now.constraints value [] [] steps.now
        → Runs system.now.vars system.now.constraints value [] [] kept.items) }
    ensures rested { IfOk result (λ kept. (value : ℕ → Option OrderSpec) → Runs system.now.vars system.now.constraints value [] [] steps.now
        → IsRestedOn system.now.constraints kept.items) }
{
    let mut kept = Vec::new(alloc);
    let mut k = steps.len();
    while k > 0 {
        k -= 1;
        keep(alloc, &mut kept, system, steps[k])?;
    }
    match kept.pop() {
        Some(all) => Ok(all.steps),
        None => Ok(VecDeque::new(alloc)),
    }
}
