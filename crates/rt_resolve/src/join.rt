//! Rows of trees, put together from the right.

ghost use Rattle.std.specs.Prelude.{◌≡◌, IfOk, map};
ghost use Rattle.rt_tree.specs.Statements as statements;
ghost use Rattle.rt_tree_nodes.specs.Tree as tree;
ghost use Rattle.rt_work_state.specs.Nodes as n;
ghost use Rattle.rt_resolve.specs.Trees as trees;

use crate::share::{both_shared, shared};
use rt_tree::Rel;
use rt_words::{List, Memory};
use rt_work_state::{CondNode, LabelsNode, SeqNode, StmtNode, TermNode, TermsNode};
use std::alloc::Global;

/// How conditions are joined.
#[derive(Clone, Copy, Debug)]
pub enum Joins {
    And,
    Or,
}

/// A statement with its labels; an empty one has none.
#[derive(Drop)]
pub struct Line {
    pub labels: List<u16>,
    pub stat: Option<StmtNode>,
}

/// A condition, and what stands behind its THEN.
#[derive(Drop)]
pub struct BranchNode {
    pub test: CondNode,
    pub taken: SeqNode,
}

/// The arguments of a call.
#[tactic(auto, using(crate::proofs::Built::built_last))]
pub fn joined_terms(alloc: Global, terms: List<TermNode>) -> Result<TermsNode, Memory>
    ensures { IfOk result (λ ts. n.terms ts ≡ trees.build tree.MoreTerms (map n.term terms) tree.NoTerm) }
{
    let mut left = terms;
    let mut joined = TermsNode::NoTerm;
    while let Some(term) = left.pop() {
        let (term, behind) = both_shared(alloc, term, joined)?;
        joined = TermsNode::MoreTerms(term, behind);
    }
    Ok(joined)
}

fn pair(alloc: Global, joins: Joins, left: CondNode, right: CondNode) -> Result<CondNode, Memory>
    ensures { IfOk result (λ t. n.cond t ≡ trees.joining joins (n.cond left) (n.cond right)) }
{
    let (left, right) = both_shared(alloc, left, right)?;
    Ok(match joins {
        Joins::And => CondNode::Both(left, right),
        Joins::Or => CondNode::Either(left, right),
    })
}

// What stands for no condition, which never comes.
fn no_test(alloc: Global) -> Result<CondNode, Memory>
    ensures { IfOk result (λ t. n.cond t ≡ tree.Is Rel.Equal (tree.Num 0) (tree.Num 0)) }
{
    let (left, right) = both_shared(alloc, TermNode::Num(0), TermNode::Num(0))?;
    Ok(CondNode::Is(Rel::Equal, left, right))
}

/// Conditions, joined from the right.
#[tactic(auto, using(crate::proofs::Built::built_last, crate::proofs::Built::tests_last))]
pub fn joined_tests(alloc: Global, joins: Joins, tests: List<CondNode>) -> Result<CondNode, Memory>
    ensures { IfOk result (λ t. n.cond t ≡ trees.joined_tests joins (map n.cond tests)) }
{
    let mut left = tests;
    let mut joined = match left.pop() {
        Some(last) => last,
        None => return no_test(alloc),
    };
    while let Some(test) = left.pop() {
        joined = pair(alloc, joins, test, joined)?;
    }
    Ok(joined)
}

/// The labels of a SWITCH.
pub fn joined_labels(alloc: Global, labels: &List<u16>) -> Result<LabelsNode, Memory>
    ensures { IfOk result (λ ls. n.labels ls ≡ labels.now) }
{
    let mut left = labels.copy(alloc)?;
    let mut joined = LabelsNode::NoLabel;
    while let Some(label) = left.pop() {
        joined = LabelsNode::MoreLabels(label, shared(alloc, joined)?);
    }
    Ok(joined)
}

/// Statements in front of a sequence.
#[tactic(auto, using(crate::proofs::Built::built_last))]
pub fn joined_statements(
    alloc: Global,
    statements: List<StmtNode>,
    behind: SeqNode,
) -> Result<SeqNode, Memory>
    ensures { IfOk result (λ q. n.seq q ≡ trees.build tree.Then (map n.stmt statements) (n.seq behind)) }
{
    let mut left = statements;
    let mut joined = behind;
    while let Some(statement) = left.pop() {
        let (statement, rest) = both_shared(alloc, statement, joined)?;
        joined = SeqNode::Then(statement, rest);
    }
    Ok(joined)
}

// Labels in front of a sequence.
#[tactic(auto, using(crate::proofs::Built::marks_last))]
fn marked(alloc: Global, labels: List<u16>, behind: SeqNode) -> Result<SeqNode, Memory>
    ensures { IfOk result (λ q. n.seq q ≡ statements.marks labels (n.seq behind)) }
{
    let mut left = labels;
    let mut joined = behind;
    while let Some(label) = left.pop() {
        joined = SeqNode::Mark(label, shared(alloc, joined)?);
    }
    Ok(joined)
}

// A line in front of a sequence.
fn with_line(alloc: Global, line: Line, behind: SeqNode) -> Result<SeqNode, Memory>
    ensures { IfOk result (λ q. n.seq q ≡ trees.after_row (trees.row line) (n.seq behind)) }
{
    let Line { labels, stat } = line;
    match stat {
        None => marked(alloc, labels, behind),
        Some(stat) => {
            let (stat, behind) = both_shared(alloc, stat, behind)?;
            marked(alloc, labels, SeqNode::Then(stat, behind))
        }
    }
}

/// The lines of a sequence.
#[tactic(auto, using(crate::proofs::Built::built_last))]
pub fn joined_lines(alloc: Global, lines: List<Line>) -> Result<SeqNode, Memory>
    ensures { IfOk result (λ q. n.seq q ≡ trees.build trees.after_row (map trees.row lines) tree.Done) }
{
    let mut left = lines;
    let mut joined = SeqNode::Done;
    while let Some(line) = left.pop() {
        joined = with_line(alloc, line, joined)?;
    }
    Ok(joined)
}

fn choice(alloc: Global, branch: BranchNode, otherwise: SeqNode) -> Result<StmtNode, Memory>
    ensures { IfOk result (λ s. n.stmt s ≡ tree.If (n.cond branch.test) (n.seq branch.taken) (n.seq otherwise)) }
{
    let BranchNode { test, taken } = branch;
    let (taken, otherwise) = both_shared(alloc, taken, otherwise)?;
    Ok(StmtNode::If(shared(alloc, test)?, taken, otherwise))
}

// The branch as the one statement behind the ELSE of the branch before it.
fn behind_else(alloc: Global, branch: BranchNode, otherwise: SeqNode) -> Result<SeqNode, Memory>
    ensures { IfOk result (λ q. n.seq q ≡ trees.after_branch (trees.branch branch) (n.seq otherwise)) }
{
    let choice = choice(alloc, branch, otherwise)?;
    let (choice, end) = both_shared(alloc, choice, SeqNode::Done)?;
    Ok(SeqNode::Then(choice, end))
}

/// The first branch, with the others behind its ELSE.
#[tactic(auto, using(crate::proofs::Built::branches_last))]
pub fn joined_branches(
    alloc: Global,
    branches: List<BranchNode>,
    otherwise: SeqNode,
) -> Result<StmtNode, Memory>
    ensures { IfOk result (λ s. n.stmt s ≡ statements.if_tree (map trees.branch branches) (n.seq otherwise)) }
{
    let mut left = branches;
    let mut joined = otherwise;
    while let Some(last) = left.pop() {
        if left.len() == 0 {
            return choice(alloc, last, joined);
        }
        joined = behind_else(alloc, last, joined)?;
    }
    Ok(StmtNode::Inner(shared(alloc, joined)?))
}
