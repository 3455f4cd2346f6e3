//! The refutation of a part that has no solution.
ghost use Rattle.std.specs.Prelude.{◌≡◌, ℕ, ◌+◌, ◌<◌, ◌≤◌, ◌^◌, ◌++◌, ◌∷◌, [], IfOk, List, Option, Some, None, length, slice_index};
ghost use Rattle.ff_tables.specs.declared.orders.Order.{Order as OrderSpec};
ghost use Rattle.ff_tables.specs.Forces.{Knows};
ghost use Rattle.ff_propagate.specs.Boards.{IsBoardOf};
ghost use Rattle.ff_propagate.specs.Facts.{value_at};
ghost use Rattle.ff_propagate.specs.Parts.{IsPart, AreTouching};
ghost use Rattle.ff_propagate.specs.Solutions.{solutions_of};
ghost use Rattle.ff_propagate.specs.Trails.{known, IsTrail, IsForcedAt, AreForced, IsDead};
ghost use Rattle.ff_propagate.specs.Uses.{AreUses};
ghost use Rattle.ff_solver.specs.Paths.{IsPath, IsReady, ArePending, AreLeft, AreNext, AreSilent, AreWithin, IsFirstOpen, IsAtNode, Nodes};
ghost use Rattle.ff_solver.specs.Most.{most_of};
ghost use Rattle.ff_propagate.specs.Trees.{Tree, IsTreeAt, visits};
ghost use Rattle.ff_tables.specs.declared.orders.Order.TheVariants.{Below, Above};
ghost use Rattle.ff_solver.specs.Refuting.{IsNaming, ArePlaces, IsNoted, IsDown, IsAt, HasNoSolution};
ghost use Rattle.ff_solver.specs.Steps.{Runs};

use crate::path::Path;
use crate::starting::{Root, root_of};
use crate::steps::Step;
use crate::visiting::first_open;
use ff_propagate::{Facts, Part, Uses};
use ff_tables::{Items, Known, NoMemory, System};
use ff_types::Case;
use std::alloc::Global;

/// A part's own system, and what it names: the variables of the case with the numbers `names`, and its constraints with the
/// numbers `numbers`.
#[derive(Drop)]
pub(crate) struct Naming<'a> {
    pub(crate) case: &'a Case,
    pub(crate) own: &'a System,
    pub(crate) uses: &'a Uses,
    pub(crate) places: &'a [u32],
    pub(crate) names: &'a [u32],
    pub(crate) numbers: &'a [u32],
}

/// A refutation as it is made: where the search stands in the decision tree, and the steps so far.
#[derive(Drop)]
pub(crate) struct Recorder {
    pub(crate) path: Path,
    pub(crate) steps: Vec<Step>,
}

impl Recorder {
    // Notes the value that was forced in the trail's step with this number.
    fn note_forced(&mut self, naming: &Naming, number: usize) -> Result<(), NoMemory>
        requires naming { IsNaming naming.now }
        requires trail { IsTrail naming.now.own.now.vars self.old.path.trail }
        requires number { number < length self.old.path.trail.steps.items }
        requires forced { IsForcedAt naming.now.own.now.constraints self.old.path.trail number }
        ensures path { self.new.path ≡ self.old.path }
        ensures noted { IfOk result (λ _. (value : ℕ → Option OrderSpec) (stack : List (List (ℕ × OrderSpec)))
            → IsNoted naming.now value self.old.path.trail stack self.old.steps.items number
            → IsNoted naming.now value self.old.path.trail stack self.new.steps.items (number + 1)) }
    {
        let step = self.path.trail.step(number);
        match step.by {
            None => {}
            Some(by) => match self.path.trail.value(step.var) {
                None => {}
                Some(value) => {
                    let var = naming.names[step.var as usize];
                    let by = naming.numbers[by as usize];
                    self.steps.push(Step::Set { var, value, by })?;
                }
            },
        }
        Ok(())
    }

    // Notes the values that were forced in the trail's steps from this one on.
    fn note_all(&mut self, naming: &Naming, from: usize) -> Result<(), NoMemory>
        requires naming { IsNaming naming.now }
        requires trail { IsTrail naming.now.own.now.vars self.old.path.trail }
        requires from { from ≤ length self.old.path.trail.steps.items }
        requires forced { AreForced naming.now.own.now.constraints from self.old.path.trail }
        ensures path { self.new.path ≡ self.old.path }
        ensures noted { IfOk result (λ _. (value : ℕ → Option OrderSpec) (stack : List (List (ℕ × OrderSpec)))
            → IsNoted naming.now value self.old.path.trail stack self.old.steps.items from
            → IsNoted naming.now value self.old.path.trail stack self.new.steps.items (length self.old.path.trail.steps.items)) }
    {
        for number in from..self.path.trail.len() {
            self.note_forced(naming, number)?;
        }
        Ok(())
    }

    // Notes that the constraint is dead, and goes to the last branch that is left.
    fn close_branch(&mut self, naming: &Naming, number: u32) -> Result<(), NoMemory>
        requires naming { IsNaming naming.now }
        requires path { IsPath naming.now.own.now.vars naming.now.own.now.constraints self.old.path }
        requires next { (head : ℕ) × (self.old.path.next ≡ Some head) }
        requires dead { IsDead naming.now.own.now.constraints self.old.path.trail number }
        ensures path { IfOk result (λ _. IsPath naming.now.own.now.vars naming.now.own.now.constraints self.new.path) }
        ensures ready { IfOk result (λ _. IsReady naming.now.own.now.constraints self.new.path.trail self.new.path.next) }
        ensures left { IfOk result (λ _. (value : ℕ → Option OrderSpec) (part : List ℕ) (nodes : Nodes) → ArePending naming.now.own.now.constraints value part self.old.path nodes
            → AreLeft naming.now.own.now.constraints value part self.new.path self.new.path.next nodes) }
        ensures less { IfOk result (λ _. most_of naming.now.own.now.vars self.new.path < most_of naming.now.own.now.vars self.old.path) }
        ensures noted { IfOk result (λ _. (value : ℕ → Option OrderSpec) → IsDown naming.now value self.old.path self.old.steps.items
            → IsAt naming.now value self.new.path self.new.path.next self.new.steps.items) }
    {
        self.steps
            .push(Step::Dead(naming.numbers[number as usize]))?;
        self.path.backtrack(naming.own);
        Ok(())
    }

    // Notes that Below of the variable is tried, and tries it.
    fn open_branch(&mut self, naming: &Naming, var: u32) -> Result<(), NoMemory>
        requires naming { IsNaming naming.now }
        requires path { IsPath naming.now.own.now.vars naming.now.own.now.constraints self.old.path }
        requires next { (head : ℕ) × (self.old.path.next ≡ Some head) }
        requires names { slice_index naming.now.names.now var < naming.now.case.now.system.vars }
        requires var { var < naming.now.own.now.vars }
        requires open { known self.old.path.trail var ≡ None }
        requires silent { AreSilent naming.now.own.now.constraints (known self.old.path.trail) }
        ensures path { IfOk result (λ _. IsPath naming.now.own.now.vars naming.now.own.now.constraints self.new.path) }
        ensures ready { IfOk result (λ _. IsReady naming.now.own.now.constraints self.new.path.trail self.new.path.next) }
        ensures left { IfOk result (λ _. (value : ℕ → Option OrderSpec) (part : List ℕ) (tried : List (ℕ × OrderSpec)) (below above : Tree) (nodes : Nodes)
            → IsAtNode naming.now.own.now.constraints value tried (known self.old.path.trail)
            → IsTreeAt naming.now.own.now.constraints (Knows value) part ((var, Below) ∷ tried) below
            → IsTreeAt naming.now.own.now.constraints (Knows value) part ((var, Above) ∷ tried) above
            → ArePending naming.now.own.now.constraints value part self.old.path nodes
            → AreLeft naming.now.own.now.constraints value part self.new.path self.new.path.next (visits below ++ (visits above ++ nodes))) }
        ensures less { IfOk result (λ _. most_of naming.now.own.now.vars self.new.path < most_of naming.now.own.now.vars self.old.path) }
        ensures noted { IfOk result (λ _. (value : ℕ → Option OrderSpec) → IsDown naming.now value self.old.path self.old.steps.items
            → IsAt naming.now value self.new.path self.new.path.next self.new.steps.items) }
    {
        self.steps.push(Step::Try(naming.names[var as usize]))?;
        self.path.branch(naming.own, var);
        Ok(())
    }

    // Closes the next node, and goes on from it.
    fn visit(&mut self, naming: &Naming, head: u32) -> Result<(), NoMemory>
        requires naming { IsNaming naming.now }
        requires few { length naming.now.own.now.constraints < 2 ^ 32 }
        requires uses { AreUses naming.now.own.now.vars naming.now.own.now.constraints naming.now.uses.now }
        requires places { ArePlaces naming.now }
        requires path { IsPath naming.now.own.now.vars naming.now.own.now.constraints self.old.path }
        requires next { self.old.path.next ≡ Some head }
        requires ready { IsReady naming.now.own.now.constraints self.old.path.trail (Some head) }
        requires none { HasNoSolution naming.now.own.now.constraints naming.now.places.now self.old.path }
        ensures path { IfOk result (λ _. IsPath naming.now.own.now.vars naming.now.own.now.constraints self.new.path) }
        ensures ready { IfOk result (λ _. IsReady naming.now.own.now.constraints self.new.path.trail self.new.path.next) }
        ensures none { IfOk result (λ _. HasNoSolution naming.now.own.now.constraints naming.now.places.now self.new.path) }
        ensures less { IfOk result (λ _. most_of naming.now.own.now.vars self.new.path < most_of naming.now.own.now.vars self.old.path) }
        ensures noted { IfOk result (λ _. (value : ℕ → Option OrderSpec) → IsDown naming.now value self.old.path self.old.steps.items
            → IsAt naming.now value self.new.path self.new.path.next self.new.steps.items) }
    {
        let from = self.path.trail.len();
        let dead = self
            .path
            .trail
            .close(naming.own, naming.uses, head as usize);
        self.note_all(naming, from)?;
        match dead {
            Some(number) => self.close_branch(naming, number),
            None => match first_open(naming.places, &self.path.trail, naming.own.vars) {
                Some(var) => self.open_branch(naming, var),
                None => unreachable!(),
            },
        }
    }

    // Goes through the whole tree.
    fn run(&mut self, naming: &Naming) -> Result<(), NoMemory>
        requires naming { IsNaming naming.now }
        requires few { length naming.now.own.now.constraints < 2 ^ 32 }
        requires uses { AreUses naming.now.own.now.vars naming.now.own.now.constraints naming.now.uses.now }
        requires places { ArePlaces naming.now }
        requires path { IsPath naming.now.own.now.vars naming.now.own.now.constraints self.old.path }
        requires ready { IsReady naming.now.own.now.constraints self.old.path.trail self.old.path.next }
        requires none { HasNoSolution naming.now.own.now.constraints naming.now.places.now self.old.path }
        ensures refuted { IfOk result (λ _. (value : ℕ → Option OrderSpec) → IsAt naming.now value self.old.path self.old.path.next self.old.steps.items
            → Runs naming.now.case.now.system.vars naming.now.case.now.system.constraints value [] [] self.new.steps.items) }
    {
        'nodes: while let Some(head) = self.path.next {
            self.visit(naming, head)?;
        }
        Ok(())
    }
}

/// A refutation of a part that has no solution, by the case's numbers. Its time and memory are those of the part's decision tree,
/// and of the constraints that touch the part.
pub fn refutation<'a>(
    alloc: Global,
    case: &'a Case,
    facts: &Facts,
    part: &'a Part,
) -> Result<Items<Step>, NoMemory>
    requires board { IsBoardOf case.now.system.vars case.now.system.constraints facts.now }
    requires part { IsPart case.now.system.vars case.now.system.constraints (value_at facts.now) part.now.vars }
    requires touching { AreTouching case.now.system.constraints part.now.vars part.now.touching }
    requires few { length case.now.system.constraints < 2 ^ 32 }
    requires none { solutions_of case.now.system.constraints (value_at facts.now) part.now.vars ≡ [] }
    ensures { IfOk result (λ steps. Runs case.now.system.vars case.now.system.constraints (value_at facts.now) [] [] steps) }
{
    let root = root_of(alloc, case, facts, part)?;
    let mut recorder = Recorder {
        path: root.path,
        steps: Vec::new(alloc),
    };
    let naming = Naming {
        case,
        own: &root.system,
        uses: &root.uses,
        places: root.places.as_slice(),
        names: root.names.as_slice(),
        numbers: part.touching.as_slice(),
    };
    recorder.run(&naming)?;
    Ok(Items::of(recorder.steps))
}
