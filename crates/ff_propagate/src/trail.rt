//! Values that are set one after the other, and taken back.
ghost use Rattle.std.specs.Prelude.{◌≡◌, ℕ, ◌+◌, ◌<◌, ◌≤◌, ◌⊎◌, ◌^◌, ◌++◌, ◌∷◌, [], IfOk, IsTrue, List, false, length, take, None, Some, slice_get, slice_set, slice_index_or, vec_len, vec_capacity};
ghost use Rattle.ff_tables.specs.declared.terms.Constraint.{Constraint as ConstraintSpec};
ghost use Rattle.ff_tables.specs.Systems.{IsFit};
ghost use Rattle.ff_propagate.specs.Trails.{value_in, known, step_at, cut, IsTrail, AreForced, Grows, IsStepped, Waits, IsSilent, Rests, IsDead, Ends};

use ff_tables::{Constraint, Forced, Known, NoMemory, Order, System, forced};
use std::alloc::Global;

/// A variable that got a value, and the number of the constraint that forced it; none where no constraint did, as for a value that
/// is tried.
#[derive(Clone, Copy, Debug, PartialEq, Eq)]
pub struct Step {
    pub var: u32,
    pub by: Option<u32>,
}

/// For each variable its value, where it is known.
#[derive(Drop)]
pub(crate) struct Values {
    pub(crate) list: Vec<Option<Order>>,
}

impl Known for Values {
    ghost count = { λ s. length s.list.items };

    ghost known = { λ s v. value_in s.list.items v };

    #[inline(always)]
    fn value(&self, var: u32) -> Option<Order> {
        self.list[var as usize]
    }
}

/// For each variable its value, where it is known, and the steps in which variables got values since the start, in their order.
#[derive(Drop)]
pub struct Trail {
    pub(crate) values: Values,
    pub(crate) steps: Vec<Step>,
}

impl Known for Trail {
    ghost count = { λ t. length t.values.list.items };

    ghost known = { λ t v. known t v };

    #[inline]
    fn value(&self, var: u32) -> Option<Order> {
        self.values.value(var)
    }
}

impl Trail {
    /// Values that are known at the start, and no steps. It takes the memory of the whole trail.
    pub fn of(alloc: Global, list: Vec<Option<Order>>) -> Result<Trail, NoMemory>
        requires few { length list.items < 2 ^ 32 }
        ensures trail { IfOk result (λ t. IsTrail (length list.items) t) }
        ensures values { IfOk result (λ t. t.values.list.items ≡ list.items) }
        ensures none { IfOk result (λ t. t.steps.items ≡ []) }
    {
        let steps = Vec::with_capacity(alloc, list.len())?;
        Ok(Trail {
            values: Values { list },
            steps,
        })
    }

    /// How many steps there are.
    #[inline]
    pub fn len(&self) -> usize
        ensures { result ≡ length self.now.steps.items }
    {
        self.steps.len()
    }

    /// The step with this number.
    #[inline]
    pub fn step(&self, number: usize) -> Step
        requires { number < length self.now.steps.items }
        ensures { result ≡ step_at self.now number }
    {
        self.steps[number]
    }

    #[inline]
    fn set(&mut self, var: u32, value: Order, by: Option<u32>)
        requires values { var < length self.old.values.list.items }
        requires room { vec_len self.old.steps < vec_capacity self.old.steps }
        ensures { IsStepped self.old var value by self.new }
    {
        self.values.list[var as usize] = Some(value);
        self.steps.push_reserved(Step { var, by });
    }

    /// Gives the variable, which has no value, this one, by no constraint.
    pub fn assume(&mut self, vars: u32, var: u32, value: Order)
        requires trail { IsTrail vars self.old }
        requires var { var < vars }
        requires open { known self.old var ≡ None }
        ensures trail { IsTrail vars self.new }
        ensures stepped { IsStepped self.old var value None self.new }
        ensures within { length self.new.steps.items ≤ vars }
        ensures same { (m : ℕ) → m ≤ length self.old.steps.items → (v : ℕ) → cut self.new m v ≡ cut self.old m v }
    {
        let _ = vars;
        self.set(var, value, None);
    }

    /// Sets what the constraint, which has this number, forces. Whether it is dead: no row of it agrees with what is known.
    #[inline(always)]
    pub fn examine(&mut self, system: &System, con: &Constraint, number: u32) -> bool
        requires trail { IsTrail system.now.vars self.old }
        requires con { slice_get system.now.constraints number ≡ Some con.now }
        ensures trail { IsTrail system.now.vars self.new }
        ensures grows { Grows system.now.constraints self.old self.new }
        ensures rests { result ≡ false → Rests self.new (length self.old.steps.items) con.now }
        ensures dead { IsTrue result → IsDead system.now.constraints self.new number }
    {
        match forced(con, &self.values) {
            Forced::Nothing => false,
            Forced::Value { var, value } => {
                self.set(var, value, Some(number));
                false
            }
            Forced::Dead => true,
        }
    }

    /// Takes back all values since the trail had as many steps.
    pub fn undo(&mut self, vars: u32, steps: usize)
        requires trail { IsTrail vars self.old }
        requires steps { steps ≤ length self.old.steps.items }
        ensures trail { IsTrail vars self.new }
        ensures steps { self.new.steps.items ≡ take steps self.old.steps.items }
        ensures same { (m : ℕ) → m ≤ steps → (v : ℕ) → cut self.new m v ≡ cut self.old m v }
        ensures forced { (cons : List ConstraintSpec) (n : ℕ) → AreForced cons n self.old → AreForced cons n self.new }
    {
        while self.steps.len() > steps {
            if let Some(step) = self.steps.pop() {
                self.values.list[step.var as usize] = None;
            }
        }
    }
}
