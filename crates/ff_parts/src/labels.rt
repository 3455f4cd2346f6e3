//! Undecided variables are labelled by their parts, breadth first.
ghost use Rattle.std.specs.Prelude.{◌≡◌, ℕ, suc, ◌+◌, ◌<◌, ◌≤◌, ◌^◌, ◌⊎◌, IsTrue, false, length, None, Some, slice_get, slice_index, vec_len, vec_capacity};
ghost use Rattle.ff_propagate.specs.Uses.{AreUses};
ghost use Rattle.ff_propagate.specs.Facts.{value_at};
ghost use Rattle.ff_parts.specs.Labels.{label, IsSpreading, Spreads, AllLabelled, HasOwn, HasVar, Ready, AreOf, Reaches};

use ff_propagate::{Facts, Uses};
use ff_tables::{Constraint, System};

/// For each variable one more than the number of its part, 0 where it has none so far; the variables that have one, in the
/// order in which they were reached; and the first variable of each part.
#[derive(Drop)]
pub(crate) struct Labels {
    pub(crate) part_of: Vec<u32>,
    pub(crate) queue: Vec<u32>,
    pub(crate) firsts: Vec<u32>,
}

// Whether the variable is one of the constraint.
fn has_var(con: &Constraint, var: u32) -> bool
    ensures yes { IsTrue result → HasVar con.now var }
    ensures no { result ≡ false → HasVar con.now var → ⊥ }
{
    let terms = con.terms.as_slice();
    for j in 0..terms.len() {
        if terms[j].var == var {
            return true;
        }
    }
    false
}

impl Labels {
    // Labels the variable, where it is undecided and has no label.
    #[inline]
    fn reach(&mut self, facts: &Facts, var: u32, part: u32)
        requires facts { var < length facts.now }
        requires wide { var < length self.old.part_of.items }
        requires room { label self.old var ≡ 0 → vec_len self.old.queue < vec_capacity self.old.queue }
        ensures { Reaches (value_at facts.now) part var self.old self.new }
    {
        if facts.fact(var).is_none() && self.part_of[var as usize] == 0 {
            self.part_of[var as usize] = part;
            self.queue.push_reserved(var);
        }
    }

    // Labels the undecided variables of the constraint, one of which is of the part.
    fn examine(&mut self, system: &System, facts: &Facts, con: &Constraint, part: u32)
        requires facts { length facts.now ≡ system.now.vars }
        requires among { (c : ℕ) × (slice_get system.now.constraints c ≡ Some con.now) }
        requires spreading { IsSpreading system.now.vars system.now.constraints (value_at facts.now) part self.old }
        requires own { HasOwn part self.old con.now }
        ensures spreading { IsSpreading system.now.vars system.now.constraints (value_at facts.now) part self.new }
        ensures spreads { Spreads part self.old self.new }
        ensures labelled { AllLabelled (value_at facts.now) self.new con.now (length con.now.terms) }
    {
        let terms = con.terms.as_slice();
        for j in 0..terms.len() {
            self.reach(facts, terms[j].var, part);
        }
    }

    // Examines the constraint, where it has the variable, which is of the part.
    fn follow(&mut self, system: &System, facts: &Facts, con: &Constraint, var: u32, part: u32)
        requires facts { length facts.now ≡ system.now.vars }
        requires among { (c : ℕ) × (slice_get system.now.constraints c ≡ Some con.now) }
        requires spreading { IsSpreading system.now.vars system.now.constraints (value_at facts.now) part self.old }
        requires own { label self.old var ≡ part }
        ensures spreading { IsSpreading system.now.vars system.now.constraints (value_at facts.now) part self.new }
        ensures spreads { Spreads part self.old self.new }
        ensures labelled { HasVar con.now var → AllLabelled (value_at facts.now) self.new con.now (length con.now.terms) }
    {
        if has_var(con, var) {
            self.examine(system, facts, con, part);
        }
    }

    // Examines the constraints that have the variable reached as the head-th, which is of the part.
    fn visit(&mut self, system: &System, facts: &Facts, uses: &Uses, head: usize, part: u32)
        requires facts { length facts.now ≡ system.now.vars }
        requires few { length system.now.constraints < 2 ^ 32 }
        requires uses { AreUses system.now.vars system.now.constraints uses.now }
        requires head { head < length self.old.queue.items }
        requires own { label self.old (slice_index self.old.queue.items head) ≡ part }
        requires spreading { IsSpreading system.now.vars system.now.constraints (value_at facts.now) part self.old }
        requires ready { Ready system.now.constraints (value_at facts.now) self.old head }
        ensures spreading { IsSpreading system.now.vars system.now.constraints (value_at facts.now) part self.new }
        ensures spreads { Spreads part self.old self.new }
        ensures ready { Ready system.now.constraints (value_at facts.now) self.new (head + 1) }
    {
        let constraints = system.constraints.as_slice();
        let var = self.queue[head];
        let list = uses.of(system.vars, constraints, var);
        for k in 0..list.len() {
            self.follow(system, facts, &constraints[list[k] as usize], var, part);
        }
    }

    // Follows constraints from the variables reached as the from-th and later.
    pub(crate) fn spread(
        &mut self,
        system: &System,
        facts: &Facts,
        uses: &Uses,
        from: usize,
        part: u32,
    )
        requires facts { length facts.now ≡ system.now.vars }
        requires few { length system.now.constraints < 2 ^ 32 }
        requires uses { AreUses system.now.vars system.now.constraints uses.now }
        requires from { from ≤ length self.old.queue.items }
        requires own { AreOf part self.old from }
        requires spreading { IsSpreading system.now.vars system.now.constraints (value_at facts.now) part self.old }
        requires ready { Ready system.now.constraints (value_at facts.now) self.old from }
        ensures spreading { IsSpreading system.now.vars system.now.constraints (value_at facts.now) part self.new }
        ensures spreads { Spreads part self.old self.new }
        ensures ready { Ready system.now.constraints (value_at facts.now) self.new (length self.new.queue.items) }
    {
        let mut at = from;
        while at < self.queue.len() {
            self.visit(system, facts, uses, at, part);
            at += 1;
        }
    }
}
