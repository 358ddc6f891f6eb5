//! LET texts in parts, so that a use of a long text costs no copy of it.

ghost use Rattle.std.specs.Prelude.{◌≡◌, [], ◌∷◌, ◌++◌, ◌+◌, ◌≤◌, length, IfOk, OnOk, OnErr};
ghost use Rattle.rt_items.specs.Lets.{items_at};
ghost use Rattle.rt_items.specs.Ropes.{Kinds, nth_text, text_at, node_text, grown, IsBuilt, AreBuilt, Keeps, IsRoot, one_number};

use rt_pieces::{Item, ItemKind, Span};
use rt_words::{List, Memory};
use std::alloc::Global;
use std::marker::Model;

/// Two earlier texts, one behind the other, by their numbers, and how many items they have.
#[derive(Clone, Copy)]
pub struct Join {
    pub size: usize,
    pub left: usize,
    pub right: usize,
}

/// A text: a run of items, or two earlier texts. None is empty.
#[derive(Drop)]
pub enum Node {
    Run(List<ItemKind>),
    Join(Join),
}

/// Texts by number, none of them empty; a text stays once it is there.
#[derive(Drop)]
pub struct Texts {
    nodes: List<Node>,
}

impl Model for Texts {
    ghost use Rattle.std.specs.Prelude.{List, []};
    ghost use Rattle.rt_items.specs.Ropes.{Kinds, grown, AreBuilt};

    ghost Value = { List Kinds };

    ghost view = { λ t. grown [] t.nodes };

    ghost invariant = { λ t. AreBuilt [] t.nodes };
}

fn copy_kind(alloc: Global, kind: &ItemKind) -> Result<ItemKind, Memory>
    ensures { IfOk result (λ k. k ≡ kind.now) }
{
    match kind {
        ItemKind::Word(word) => Ok(ItemKind::Word(*word)),
        ItemKind::Name(name) => Ok(ItemKind::Name(name.copy(alloc)?)),
        ItemKind::Number(value) => Ok(ItemKind::Number(*value)),
        ItemKind::Text(bytes) => Ok(ItemKind::Text(bytes.copy(alloc)?)),
        ItemKind::Mark(mark) => Ok(ItemKind::Mark(*mark)),
    }
}

fn push_items(
    alloc: Global,
    out: &mut List<Item>,
    span: Span,
    kinds: &[ItemKind],
) -> Result<(), Memory>
    ensures { OnOk result (out.new ≡ out.old ++ items_at span.line span.from span.to kinds.now) }
{
    for kind in kinds {
        let kind = copy_kind(alloc, kind)?;
        out.push(Item {
            kind,
            line: span.line,
            from: span.from,
            to: span.to,
        })?;
    }
    Ok(())
}

fn node_size(node: &Node) -> usize
    ensures { (done : List Kinds) → IsBuilt done node.now → result ≡ length (node_text done node.now) }
{
    match node {
        Node::Run(run) => run.len(),
        Node::Join(join) => join.size,
    }
}

fn size_in(nodes: &List<Node>, at: usize) -> usize
    requires { AreBuilt [] nodes.now }
    ensures { result ≡ length (nth_text (grown [] nodes.now) at) }
{
    match nodes.get(at) {
        None => 0,
        Some(node) => node_size(node),
    }
}

/// Writes a text out, in the order of its items, with the texts that are still to be written on a stack.
fn write_nodes(
    alloc: Global,
    nodes: &List<Node>,
    at: usize,
    span: Span,
    out: &mut List<Item>,
) -> Result<(), Memory>
    requires { AreBuilt [] nodes.now }
    ensures { OnOk result (out.new ≡ out.old ++ items_at span.line span.from span.to (nth_text (grown [] nodes.now) at)) }
{
    let mut rest = List::new(alloc, 0)?;
    rest.push(at)?;
    while let Some(at) = rest.pop() {
        match nodes.get(at) {
            None => {}
            Some(Node::Run(run)) => push_items(alloc, out, span, run.as_slice())?,
            Some(Node::Join(join)) => {
                rest.push(join.right)?;
                rest.push(join.left)?;
            }
        }
    }
    Ok(())
}

fn number_in(nodes: &List<Node>, at: usize) -> Option<u16>
    requires { AreBuilt [] nodes.now }
    ensures { result ≡ one_number (nth_text (grown [] nodes.now) at) }
{
    match nodes.get(at) {
        Some(Node::Run(run)) => number_of(run.as_slice()),
        Some(Node::Join(_)) => None,
        None => None,
    }
}

fn number_of(run: &[ItemKind]) -> Option<u16>
    ensures { result ≡ one_number run.now }
{
    match run {
        [ItemKind::Number(value)] => Some(*value),
        _ => None,
    }
}

impl Texts {
    pub fn new(alloc: Global) -> Texts
        ensures { result ≡ [] }
    {
        Texts {
            nodes: List::from_vec(Vec::new(alloc)),
        }
    }

    fn size(&self, at: usize) -> usize
        ensures { result ≡ length (nth_text self.now at) }
    {
        size_in(&self.nodes, at)
    }

    /// How many items a text has.
    pub fn len(&self, text: Option<usize>) -> usize
        ensures { result ≡ length (text_at self.now text) }
    {
        match text {
            None => 0,
            Some(at) => self.size(at),
        }
    }

    /// One text more, with its number.
    fn add(&mut self, node: Node) -> Result<usize, Memory>
        requires { IsBuilt self.old node }
        ensures number { IfOk result (λ at. at ≡ length self.old) }
        ensures text { OnOk result (self.new ≡ self.old ++ node_text self.old node ∷ []) }
        ensures kept { OnErr result (self.new ≡ self.old) }
    {
        let at = self.nodes.len();
        self.nodes.push(node)?;
        Ok(at)
    }

    /// A run of items as a text.
    pub fn run(&mut self, run: List<ItemKind>) -> Result<Option<usize>, Memory>
        ensures text { IfOk result (λ text. text_at self.new text ≡ run) }
        ensures root { IfOk result (λ text. IsRoot self.new text) }
        ensures keeps { Keeps self.old self.new }
    {
        if run.len() == 0 {
            return Ok(None);
        }
        let at = self.add(Node::Run(run))?;
        Ok(Some(at))
    }

    fn join(&mut self, left: usize, right: usize) -> Result<Option<usize>, Memory>
        requires left { 1 ≤ length (nth_text self.old left) }
        requires right { 1 ≤ length (nth_text self.old right) }
        requires size { length (nth_text self.old left) + length (nth_text self.old right) ≤ 65535 }
        ensures text { IfOk result (λ text. text_at self.new text ≡ nth_text self.old left ++ nth_text self.old right) }
        ensures root { IfOk result (λ text. IsRoot self.new text) }
        ensures keeps { Keeps self.old self.new }
    {
        let size = self.size(left) + self.size(right);
        let at = self.add(Node::Join(Join { size, left, right }))?;
        Ok(Some(at))
    }

    /// A text that is not empty, or none.
    fn root(&self, text: Option<usize>) -> Option<usize>
        ensures text { text_at self.entry.now result ≡ text_at self.entry.now text }
        ensures root { IsRoot self.entry.now result }
    {
        if self.len(text) == 0 { None } else { text }
    }

    /// Two texts, one behind the other.
    pub fn joined(
        &mut self,
        left: Option<usize>,
        right: Option<usize>,
    ) -> Result<Option<usize>, Memory>
        requires { length (text_at self.old left) + length (text_at self.old right) ≤ 65535 }
        ensures text { IfOk result (λ text. text_at self.new text ≡ text_at self.old left ++ text_at self.old right) }
        ensures root { IfOk result (λ text. IsRoot self.new text) }
        ensures keeps { Keeps self.old self.new }
    {
        match (self.root(left), self.root(right)) {
            (None, right) => Ok(right),
            (left, None) => Ok(left),
            (Some(left), Some(right)) => self.join(left, right),
        }
    }

    /// Writes a text out; its items carry the line and the span of the use.
    pub fn write(
        &self,
        alloc: Global,
        text: Option<usize>,
        span: Span,
        out: &mut List<Item>,
    ) -> Result<(), Memory>
        ensures { OnOk result (out.new ≡ out.old ++ items_at span.line span.from span.to (text_at self.now text)) }
    {
        match text {
            None => Ok(()),
            Some(at) => write_nodes(alloc, &self.nodes, at, span, out),
        }
    }

    /// The number that a text is, where it is exactly one.
    pub fn one_number(&self, text: Option<usize>) -> Option<u16>
        ensures { result ≡ one_number (text_at self.now text) }
    {
        number_in(&self.nodes, text?)
    }
}
