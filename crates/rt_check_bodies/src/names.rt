//! What the nodes of a body see.

ghost use Rattle.std.specs.Prelude.{◌≡◌, [], ◌∷◌, Option, IfOk, OnOk};
ghost use Rattle.std.specs.Option.{option_copied};
ghost use Rattle.rt_modes.specs.declared.mode.Mode.{Mode};
ghost use Rattle.rt_tree_nodes.specs.declared.value.Place.{Place};
ghost use Rattle.rt_check_faults.specs.Outcomes.{Outcome, Gives, UnlessMemory};
ghost use Rattle.rt_exprs.specs.Names.{find};
ghost use Rattle.rt_exprs.specs.Judging.{target, val_target, alone};
ghost use Rattle.rt_check_declared.specs.declared.site.Site.TheVariants as site;
ghost use Rattle.rt_check_declared.specs.Verdicts.{Answers};
ghost use Rattle.rt_check_declared.specs.Written.{written as spelt};
ghost use Rattle.rt_exprs.specs.Sights as sights;
ghost use Rattle.rt_check_bodies.specs.Sights as spec;

use indexmap::IndexSet;
use rt_check_declared::{Resolved, Site, resolve};
use rt_check_faults::CheckFault;
use rt_exprs::{
    IndexedRecords, Level, Meaning, Scope, find_name, fit, fit_by_itself, fit_call, fit_condition,
    fit_nothing, fit_target, fit_val_target,
};
use rt_grammar::{At, Ident};
use rt_modes::Mode;
use rt_syntax_exprs::{Chain, Cond, Expr, WrittenMode};
use rt_tree_nodes::{Place, Stat, Test, Value};
use rt_words::Memory;
use std::alloc::Global;
use std::marker::Model;

/// What a node sees: contracts see it as a `Sight`.
#[derive(Drop)]
pub struct Names<'a> {
    modes: &'a IndexedRecords,
    strings: &'a IndexSet<u16>,
    levels: Vec<Level<'a>>,
}

impl<'a> Model for Names<'a> {
    ghost use Rattle.std.specs.Coded.{codes};
    ghost use Rattle.rt_modes.specs.contracts.mode.Mode as trees;
    ghost use Rattle.rt_exprs.specs.Sights.{Sight};

    ghost Value = { Sight };

    ghost coded = { Prim.hlevel (codes, trees.the_row.coded) };

    ghost view = { λ n. record { records = n.modes.now.records; strings = n.strings.now.keys; levels = n.levels.items } };
}

impl<'a> Names<'a> {
    /// What the procedures of a module see: its records, the items of its strings, and the names of its declarations.
    pub fn new(
        alloc: Global,
        modes: &'a IndexedRecords,
        strings: &'a IndexSet<u16>,
        level: Level<'a>,
    ) -> Result<Names<'a>, Memory>
        ensures { IfOk result (λ n. n ≡ record { records = modes.now.records; strings = strings.now.keys; levels = level.entry ∷ [] }) }
    {
        let Ok(mut levels) = Vec::with_capacity(alloc, 1) else {
            return Err(Memory);
        };
        let Ok(()) = levels.push(level) else {
            return Err(Memory);
        };
        Ok(Names {
            modes,
            strings,
            levels,
        })
    }

    /// Opens a level of names.
    pub fn enter(&mut self, level: Level<'a>) -> Result<(), Memory>
        ensures { OnOk result (self.new ≡ sights.within level.entry self.old) }
    {
        match self.levels.insert(0, level) {
            Ok(()) => Ok(()),
            Err(_) => Err(Memory),
        }
    }

    /// Closes the innermost level.
    pub fn leave(&mut self)
        ensures { self.new ≡ sights.outside self.old }
    {
        if self.levels.len() > 0 {
            self.levels.remove(0);
        }
    }

    /// One name more in the innermost level: whether it was there already.
    pub fn declare(
        &mut self,
        alloc: Global,
        name: &'a [u8],
        meaning: Meaning,
    ) -> Result<bool, Memory>
        ensures held { IfOk result (λ held. held ≡ sights.holds (sights.innermost self.old.levels) name.now) }
        ensures declared { OnOk result (self.new ≡ sights.with_name name.now meaning self.old) }
    {
        let mut level = self.take_innermost(alloc);
        let held = level.declare(name, meaning)?;
        self.enter(level)?;
        Ok(held)
    }

    fn take_innermost(&mut self, alloc: Global) -> Level<'a>
        ensures level { result ≡ sights.innermost self.old.levels }
        ensures left { self.new ≡ sights.outside self.old }
    {
        if self.levels.len() > 0 {
            self.levels.remove(0)
        } else {
            Level::new(alloc)
        }
    }

    /// The same as the rules of expressions take it.
    pub fn scope(&self) -> Scope<'_>
        ensures { result ≡ self.now }
    {
        Scope::new(self.modes, self.strings, self.levels.as_slice())
    }

    /// The value of an expression where a mode is wanted.
    pub fn value(&self, alloc: Global, expr: &Expr, wanted: &Mode) -> Result<Value, CheckFault>
        ensures { Gives (λ v. v) result (spec.value_in self.now expr.now wanted.now) }
    {
        fit(alloc, expr, wanted, &self.scope())
    }

    /// The place to which a chain assigns, and its mode.
    fn target(&self, alloc: Global, to: &Chain) -> Result<(Option<Place>, &Mode), CheckFault>
        ensures { Gives (λ x. (x.0, x.1.now)) result (target self.now to.now) }
    {
        fit_target(alloc, to, &self.scope())
    }

    /// The same of what VAL, which stands at `at`, and a chain name.
    fn val_target(
        &self,
        alloc: Global,
        at: At,
        to: &Chain,
    ) -> Result<(Option<Place>, &Mode), CheckFault>
        ensures { Gives (λ x. (x.0, x.1.now)) result (val_target self.now at to.now) }
    {
        fit_val_target(alloc, at, to, &self.scope())
    }

    /// An assignment to a chain.
    pub fn assignment(&self, alloc: Global, to: &Chain, from: &Expr) -> Result<Stat, CheckFault>
        ensures { Gives (λ x. x) result (spec.assignment_in self.now to.now from.now) }
    {
        self.assigned(alloc, self.target(alloc, to), from)
    }

    /// An assignment to what VAL, which stands at `at`, and a chain name.
    pub fn val_assignment(
        &self,
        alloc: Global,
        at: At,
        to: &Chain,
        from: &Expr,
    ) -> Result<Stat, CheckFault>
        ensures { Gives (λ x. x) result (spec.val_assignment_in self.now at to.now from.now) }
    {
        self.assigned(alloc, self.val_target(alloc, at, to), from)
    }

    /// An assignment to a place: its mode is wanted of the expression. Where there is none, the expression is judged by itself.
    fn assigned(
        &self,
        alloc: Global,
        to: Result<(Option<Place>, &Mode), CheckFault>,
        from: &Expr,
    ) -> Result<Stat, CheckFault>
        ensures { (t : Outcome (Option Place × Mode)) → Gives (λ x. (x.0, x.1.now)) to.entry t → Gives (λ x. x) result (spec.assigned_in self.now t from.now) }
    {
        match to {
            Ok((place, mode)) => {
                let value = self.value(alloc, from, mode)?;
                match place {
                    Some(place) => Ok(Stat::Assign(place, value)),
                    None => Err(CheckFault::Unknown),
                }
            }
            Err(fault) => Err(fault.sooner(self.alone(alloc, from))),
        }
    }

    /// The fault of an expression of which no mode is known to be wanted; that of what can't be known where none stands.
    pub fn alone(&self, alloc: Global, expr: &Expr) -> CheckFault
        ensures { UnlessMemory result (result ≡ spec.alone_in self.now expr.now) }
    {
        fit_by_itself(alloc, expr, &self.scope())
    }

    /// The fault of an expression where nothing is wanted.
    pub fn nothing(&self, alloc: Global, expr: &Expr) -> CheckFault
        ensures { UnlessMemory result (result ≡ spec.nowhere_in self.now expr.now) }
    {
        fit_nothing(alloc, expr, &self.scope())
    }

    fn called(&self, alloc: Global, chain: &Chain) -> Result<Value, CheckFault>
        ensures { Gives (λ v. v) result (alone self.now chain.now) }
    {
        fit_call(alloc, chain, &self.scope())
    }

    /// A chain that stands alone.
    pub fn call(&self, alloc: Global, chain: &Chain) -> Result<Stat, CheckFault>
        ensures { Gives (λ x. x) result (spec.call_in self.now chain.now) }
    {
        let call = self.called(alloc, chain)?;
        Ok(Stat::Call(call))
    }

    pub fn test(&self, alloc: Global, condition: &Cond) -> Result<Test, CheckFault>
        ensures { Gives (λ t. t) result (spec.test_in self.now condition.now) }
    {
        fit_condition(alloc, condition, &self.scope())
    }

    /// What a name stands for.
    fn meaning(&self, name: &[u8]) -> Option<&Meaning>
        ensures { option_copied result ≡ find self.now name.now }
    {
        find_name(self.levels.as_slice(), name)
    }

    /// The label that GOTO or SWITCH names.
    pub fn label(&self, name: &Ident) -> Result<u16, CheckFault>
        ensures { Gives (λ k. k) result (spec.label_in self.now name.now) }
    {
        label_by(name.at, self.meaning(name.name.as_slice()))
    }

    /// The mode that is written for a parameter, a local or a result.
    fn resolved(&self, alloc: Global, written: &WrittenMode) -> Result<Resolved, CheckFault>
        ensures { Answers (λ r. r) result (spelt (find self.now) written.now site.Variable) }
    {
        resolve(alloc, written, Site::Variable, self.levels.as_slice())
    }

    /// The mode of a parameter, a local or a result, which is written at `at`.
    pub fn mode(&self, alloc: Global, at: At, written: &WrittenMode) -> Result<Mode, CheckFault>
        ensures { Gives (λ m. m) result (spec.mode_in self.now at written.now) }
    {
        let resolved = self.resolved(alloc, written)?;
        variable_by(at, resolved)
    }
}

/// The mode of a variable, which is written at `at`.
fn variable_by(at: At, resolved: Resolved) -> Result<Mode, CheckFault>
    ensures { Gives (λ m. m) result (spec.variable_by at resolved) }
{
    match resolved {
        Resolved::Mode(mode) => Ok(mode),
        Resolved::BadLength => Err(CheckFault::LeftOut { form: 3, at }),
    }
}

/// The label that a name is.
fn label_by(at: At, meaning: Option<&Meaning>) -> Result<u16, CheckFault>
    ensures { Gives (λ k. k) result (spec.label_by at (option_copied meaning.entry)) }
{
    match meaning {
        None => Err(CheckFault::UnknownLabel(at)),
        Some(meaning) => match meaning {
            Meaning::Label(label) => Ok(*label),
            Meaning::Svc(item, _) => {
                if *item == 0 {
                    return Err(CheckFault::LeftOut { form: 2, at });
                }
                Err(CheckFault::UnknownLabel(at))
            }
            _ => Err(CheckFault::UnknownLabel(at)),
        },
    }
}
