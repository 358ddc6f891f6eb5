//! A module in which every node fits.

ghost use Rattle.std.specs.Prelude.{◌≡◌, true, false, IfSome, IfNone, slice_get};
ghost use Rattle.rt_tree_nodes.specs.Code as seen;
ghost use Rattle.rt_tree_nodes.specs.Scopes.{scope_of};
ghost use Rattle.rt_tree.specs.Modules.{every_node_fits, has_body, is_procedure, sort_with, with_most};

use crate::bricks::every_node_fits;
use rt_modes::ModeTable;
use rt_tree_nodes::{Brick, BrickSort, ModuleParts, Scope, Supplied};
use rt_words::{Bytes, List, Name};
use std::marker::Model;

/// A module in which every node fits, at every moment: contracts see its parts.
#[derive(Drop)]
pub struct TypedModule {
    parts: ModuleParts,
    /// Which of its bricks are supplied.
    supplied: Supplied,
}

impl Model for TypedModule {
    ghost use Rattle.std.specs.Prelude.{◌≡◌, true};
    ghost use Rattle.rt_tree_nodes.specs.declared.brick.ModuleParts.{ModuleParts};
    ghost use Rattle.rt_tree_nodes.specs.Scopes.{supplied_of};
    ghost use Rattle.rt_tree.specs.Modules.{every_node_fits};
    ghost use Rattle.std.specs.Coded.{codes};
    ghost use Rattle.rt_modes.specs.contracts.mode.Mode as modes;
    ghost use Rattle.rt_tree_nodes.specs.contracts.brick.DataStart as starts;
    ghost use Rattle.rt_tree_nodes.specs.contracts.statement.Stat as statements;
    ghost use Rattle.rt_tree_nodes.specs.contracts.statement.Body as bodies;

    ghost Value = { ModuleParts };

    ghost coded = { Prim.hlevel (codes, modes.the_row.coded, starts.the_row.coded, statements.the_row.coded, bodies.the_row.coded) };

    ghost view = { λ m. m.parts };

    ghost invariant = { λ m. (every_node_fits m.parts ≡ true) × (m.supplied ≡ supplied_of m.parts.bricks) };
}

impl TypedModule {
    /// The module of these parts, or `None` exactly where a node doesn't fit; the parts are dropped then. It takes no
    /// memory.
    pub fn new(parts: ModuleParts) -> Option<TypedModule>
        ensures parts { IfSome result (λ typed. typed ≡ parts) }
        ensures fits { IfSome result (λ _. every_node_fits parts ≡ true) }
        ensures unfit { IfNone result (every_node_fits parts ≡ false) }
    {
        let supplied = Supplied::of(parts.bricks.as_slice());
        if every_node_fits(&Scope::with_supplied(&parts, &supplied), &parts) {
            Some(TypedModule { parts, supplied })
        } else {
            None
        }
    }

    /// The parts, in which every node fits.
    pub fn parts(&self) -> &ModuleParts
        ensures parts { result.now ≡ self.now }
        ensures fits { every_node_fits self.now ≡ true }
    {
        &self.parts
    }

    /// The name behind TITLE.
    pub fn title(&self) -> &Name
        ensures { result.now ≡ self.now.title }
    {
        &self.parts.title
    }

    /// The records of the module, in the order of their MODEs.
    pub fn modes(&self) -> &ModeTable
        ensures { result.now ≡ self.now.modes }
    {
        &self.parts.modes
    }

    /// The bricks, in the order of their declaration.
    pub fn bricks(&self) -> &List<Brick>
        ensures { result.now ≡ self.now.bricks }
    {
        &self.parts.bricks
    }

    /// The strings, in the order of their items.
    pub fn strings(&self) -> &List<Bytes>
        ensures { result.now ≡ self.now.strings }
    {
        &self.parts.strings
    }

    /// What the nodes of the module may name: no walk over its bricks.
    pub fn scope(&self) -> Scope<'_>
        ensures { seen.scope result ≡ scope_of self.now }
    {
        Scope::with_supplied(&self.parts, &self.supplied)
    }

    /// Whether a brick is an own or ENT procedure of the module.
    pub fn is_procedure(&self, brick: u16) -> bool
        ensures { result ≡ is_procedure (slice_get self.now.bricks brick) }
    {
        match self.parts.bricks.get(usize::from(brick)) {
            Some(found) => has_body(&found.sort),
            None => false,
        }
    }

    /// Sets the bound of the recursion of brick `brick`, an own or ENT procedure, and changes nothing else. It takes no
    /// memory.
    pub fn bound(&mut self, brick: u16, most: u16)
        requires { is_procedure (slice_get self.now.bricks brick) ≡ true }
        ensures { self.new ≡ with_most self.old brick most }
    {
        let mut bricks = self.parts.bricks.take().into_vec();
        if let Some(found) = bricks.get_mut(usize::from(brick)) {
            set_most(&mut found.sort, most);
        }
        self.parts.bricks = List::from_vec(bricks);
    }
}

fn has_body(sort: &BrickSort) -> bool
    ensures { result ≡ has_body sort.now }
{
    matches!(sort, BrickSort::Proc(_, Some(_)))
}

fn set_most(sort: &mut BrickSort, most: u16)
    ensures { sort.new ≡ sort_with most sort.old }
{
    if let BrickSort::Proc(_, Some(body)) = sort {
        body.most = most;
    }
}
