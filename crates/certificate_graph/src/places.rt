//! The places of a tree, one after another. What is seen of a tree is seen through them.

ghost use Rattle.std.specs.Prelude.{◌≡◌, MatchOption, [], ◌∷◌};
ghost use Rattle.certificate_graph.specs.Trees.{NoBranch, Branch};
ghost use Rattle.certificate_graph.specs.OneTree.{one_tree, one_branches, one_children};
ghost use Rattle.certificate_graph.specs.Rows.{IsTreeRow, AreBranchesRow, AreChildrenRow, tree_row, branches_row};
ghost use Rattle.certificate_graph.specs.Rows.{children_row};
ghost use Rattle.certificate_graph.specs.Views.{tree_seen};

use crate::children::Child;
use crate::rows::Token;
use pattern_step::PatCard;
use std::marker::Model;

/// A place of a tree, with all below it.
#[derive(Drop)]
pub struct Place<'a> {
    row: &'a [Token],
    ghost is_tree: { IsTreeRow row.now } by { one_tree row.now },
}

/// Branches of a tree, in their order.
#[derive(Drop)]
pub struct Branches<'a> {
    row: &'a [Token],
    ghost are_branches: { AreBranchesRow row.now } by { one_branches row.now },
}

/// The children of a leaf, in their order.
#[derive(Drop)]
pub struct Children<'a> {
    row: &'a [Token],
    ghost are_children: { AreChildrenRow row.now } by { one_children row.now },
}

/// What stands in a place: a card of the side, the cards of the opponents, or the nodes after the trick.
#[derive(Drop)]
pub enum PlaceView<'a> {
    /// A card of the side, and the place after it.
    Own(PatCard, Place<'a>),
    /// The cards of the opponents, each with the place after it.
    Reply(Branches<'a>),
    /// The end of the trick: the nodes that go on.
    Leaf(Children<'a>),
}

impl<'a> Model for Place<'a> {
    ghost use Rattle.certificate_graph.specs.Trees.{TrickTree};
    ghost use Rattle.certificate_graph.specs.TreeCodes.{tree_code};

    ghost Value = { TrickTree };

    ghost coded = { tree_code };

    ghost view = { λ place. place.is_tree.0 };
}

impl<'a> Model for Branches<'a> {
    ghost use Rattle.certificate_graph.specs.Trees.{Branches};
    ghost use Rattle.certificate_graph.specs.TreeCodes.{branches_code};

    ghost Value = { Branches };

    ghost coded = { branches_code };

    ghost view = { λ branches. branches.are_branches.0 };
}

impl<'a> Model for Children<'a> {
    ghost use Rattle.std.specs.Prelude.{List};
    ghost use Rattle.certificate_graph.specs.declared.children.Child.{Child};

    ghost Value = { List Child };

    ghost view = { λ children. children.are_children.0 };
}

impl<'a> Place<'a> {
    /// The first place of a row.
    pub(crate) fn of_row(row: &'a [Token]) -> Place<'a>
        requires { IsTreeRow row.now }
        ensures { tree_row result ≡ row.now }
    {
        Place { row }
    }

    /// The tokens that stand there, to the end of the row.
    pub(crate) fn row(&self) -> &'a [Token]
        ensures { result.now ≡ tree_row self.now }
    {
        self.row
    }

    /// What stands here.
    pub fn view(&self) -> PlaceView<'a>
        ensures { tree_seen result ≡ self.now }
    {
        let row = self.row();
        let Some((first, rest)) = row.split_first() else {
            return PlaceView::Leaf(Children::of_row(row));
        };
        match first {
            Token::Own(card) => PlaceView::Own(*card, Place::of_row(rest)),
            Token::Reply => PlaceView::Reply(Branches::of_row(rest)),
            Token::Child(..) => PlaceView::Leaf(Children::of_row(row)),
            Token::Branch(..) => unreachable!(),
        }
    }
}

impl<'a> Branches<'a> {
    /// The branches of a row.
    fn of_row(row: &'a [Token]) -> Branches<'a>
        requires { AreBranchesRow row.now }
        ensures { branches_row result ≡ row.now }
    {
        Branches { row }
    }

    /// The tokens that stand there, to the end of the row.
    fn row(&self) -> &'a [Token]
        ensures { result.now ≡ branches_row self.now }
    {
        self.row
    }

    /// The card of the first branch, the place after it, and the other branches; none where there is no branch.
    pub fn split_first(&self) -> Option<(PatCard, Place<'a>, Branches<'a>)>
        ensures { MatchOption result (self.now ≡ NoBranch) (λ first. self.now ≡ Branch first.0 first.1 first.2) }
    {
        let row = self.row();
        let Some((first, rest)) = row.split_first() else {
            return None;
        };
        let Token::Branch(card, count) = first else {
            unreachable!();
        };
        let (below, others) = rest.split_at(*count as usize);
        Some((*card, Place::of_row(below), Branches::of_row(others)))
    }
}

impl<'a> Children<'a> {
    /// The children of a row.
    fn of_row(row: &'a [Token]) -> Children<'a>
        requires { AreChildrenRow row.now }
        ensures { children_row result ≡ row.now }
    {
        Children { row }
    }

    /// The tokens that stand there, to the end of the row.
    fn row(&self) -> &'a [Token]
        ensures { result.now ≡ children_row self.now }
    {
        self.row
    }

    /// The first child, and the others; none where there is no child.
    pub fn split_first(&self) -> Option<(Child, Children<'a>)>
        ensures { MatchOption result (self.now ≡ []) (λ first. self.now ≡ first.0 ∷ first.1) }
    {
        let row = self.row();
        let Some((first, rest)) = row.split_first() else {
            return None;
        };
        let Token::Child(winner, number) = first else {
            unreachable!();
        };
        let child = Child {
            winner: *winner,
            number: *number,
        };
        Some((child, Children::of_row(rest)))
    }
}
