//! The tree of a node, as it is stored.

ghost use Rattle.std.specs.Prelude.{◌≡◌, ◌≤◌, IfOk, MatchOption, length};
ghost use Rattle.std.specs.List.{between};
ghost use Rattle.certificate_graph.specs.OneTree.{one_tree};
ghost use Rattle.certificate_graph.specs.Rows.{IsTreeRow, tree_row};
ghost use Rattle.certificate_graph.specs.Trees.{Own, Reply, Leaf, branches_of};

use crate::children::Child;
use crate::places::Place;
use crate::row_writing::{push_branches, push_children};
use crate::rows::{Token, is_tree_row};
use cards::OutOfMemory;
use pattern_step::PatCard;
use std::alloc::{AllocError, Global};
use std::marker::Model;
use std::sync::Arc;

/// What is to be played in a trick, and the nodes that go on after it: a row of tokens, among those of other trees.
#[derive(Drop)]
pub struct Tree {
    rows: Arc<Vec<Token>>,
    begin: usize,
    end: usize,
    ghost within: { (begin ≤ end) × (end ≤ length rows.value.items) },
    ghost is_tree: { IsTreeRow (between begin end rows.value.items) } by { one_tree (between begin end rows.value.items) },
}

impl Model for Tree {
    ghost use Rattle.certificate_graph.specs.Trees.{TrickTree};
    ghost use Rattle.certificate_graph.specs.TreeCodes.{tree_code};

    ghost Value = { TrickTree };

    ghost coded = { tree_code };

    ghost view = { λ tree. tree.is_tree.0 };
}

impl Tree {
    /// The tree of these tokens. None where they are those of no tree. Calls lie as deep in one another as the tree's
    /// cards. Fails only where memory runs out.
    pub fn from_tokens(alloc: Global, row: Vec<Token>) -> Result<Option<Tree>, OutOfMemory>
        ensures { IfOk result (λ made. MatchOption made (IsTreeRow row.items → ⊥) (λ tree. tree_row tree ≡ row.items)) }
    {
        if !is_tree_row(row.as_slice()) {
            return Ok(None);
        }
        let tree = Tree::of_row(alloc, row)?;
        Ok(Some(tree))
    }

    /// A card of the side, and what follows it. Fails only where memory runs out.
    pub fn own(alloc: Global, card: PatCard, below: &Tree) -> Result<Tree, OutOfMemory>
        ensures { IfOk result (λ tree. tree ≡ Own card below.now) }
    {
        let mut row = Vec::new(alloc);
        row.push(Token::Own(card))?;
        row.extend_from_slice(below.tokens())?;
        let tree = Tree::of_row(alloc, row)?;
        Ok(tree)
    }

    /// The cards of the opponents in this order, each with what follows it. Fails only where memory runs out, or where
    /// over 4,294,967,295 tokens follow a card, which is more than a graph's tree has.
    pub fn reply(alloc: Global, branches: &[(PatCard, Tree)]) -> Result<Tree, OutOfMemory>
        ensures { IfOk result (λ tree. tree ≡ Reply (branches_of branches.now)) }
    {
        let mut row = Vec::new(alloc);
        row.push(Token::Reply)?;
        push_branches(&mut row, branches)?;
        let tree = Tree::of_row(alloc, row)?;
        Ok(tree)
    }

    /// The end of the trick: the nodes that go on, in this order. Fails only where memory runs out.
    pub fn leaf(alloc: Global, children: &[Child]) -> Result<Tree, OutOfMemory>
        ensures { IfOk result (λ tree. tree ≡ Leaf children.now) }
    {
        let mut row = Vec::new(alloc);
        push_children(&mut row, children)?;
        let tree = Tree::of_row(alloc, row)?;
        Ok(tree)
    }

    /// The tree of a row, which is one.
    pub(crate) fn of_row(alloc: Global, row: Vec<Token>) -> Result<Tree, AllocError>
        requires { IsTreeRow row.items }
        ensures { IfOk result (λ tree. tree_row tree ≡ row.items) }
    {
        let end = row.len();
        let rows = Arc::new(alloc, row)?;
        Ok(Tree {
            rows,
            begin: 0,
            end,
        })
    }

    /// The tree that stands between two places of rows, which are shared.
    pub(crate) fn of_rows(
        rows: &Arc<Vec<Token>>,
        begin: usize,
        end: usize,
    ) -> Result<Tree, AllocError>
        requires within { (begin ≤ end) × (end ≤ length rows.now.value.items) }
        requires is_tree { IsTreeRow (between begin end rows.now.value.items) }
        ensures { IfOk result (λ tree. tree_row tree ≡ between begin end rows.now.value.items) }
    {
        let rows = rows.clone()?;
        Ok(Tree { rows, begin, end })
    }

    /// Its tokens.
    pub fn tokens(&self) -> &[Token]
        ensures { result.now ≡ tree_row self.now }
    {
        &self.rows[self.begin..self.end]
    }

    /// The first place.
    pub fn root(&self) -> Place<'_>
        ensures { result ≡ self.now }
    {
        Place::of_row(self.tokens())
    }
}
