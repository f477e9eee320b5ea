//! The tokens of which a tree is a row, and which rows are trees.

ghost use Rattle.std.specs.Prelude.{◌↔◌, IsTrue};
ghost use Rattle.certificate_graph.specs.Rows.{IsTreeRow, AreBranchesRow, AreChildrenRow};

use cards::Seat;
use pattern_step::PatCard;

/// One thing of a tree. That of a place stands before those of what follows it.
#[derive(Clone, Copy, Debug, PartialEq)]
pub enum Token {
    /// A card of the side. What follows it is the rest of the row.
    Own(PatCard),
    /// The opponents play. Their branches are the rest of the row.
    Reply,
    /// A card of the opponents, and how many tokens after it are of what follows it.
    Branch(PatCard, u32),
    /// The seat that may win, and the number of the node that goes on. A leaf is a row of these.
    Child(Seat, u32),
}

/// Whether the tokens are those of a tree.
#[cycle(row)]
pub(crate) fn is_tree_row(row: &[Token]) -> bool
    ensures { IsTrue result ↔ IsTreeRow row.now }
{
    let Some((first, rest)) = row.split_first() else {
        return true;
    };
    match first {
        Token::Own(_) => is_tree_row(rest),
        Token::Reply => are_branches_row(rest),
        Token::Branch(..) => false,
        Token::Child(..) => are_children_row(rest),
    }
}

/// Whether the tokens are those of branches.
#[cycle(row)]
fn are_branches_row(row: &[Token]) -> bool
    ensures { IsTrue result ↔ AreBranchesRow row.now }
{
    let Some((first, rest)) = row.split_first() else {
        return true;
    };
    let Token::Branch(_, count) = first else {
        return false;
    };
    let Some((below, others)) = rest.split_at_checked(*count as usize) else {
        return false;
    };
    is_tree_row(below) && are_branches_row(others)
}

/// Whether the tokens are those of children.
fn are_children_row(row: &[Token]) -> bool
    ensures { IsTrue result ↔ AreChildrenRow row.now }
{
    let Some((first, rest)) = row.split_first() else {
        return true;
    };
    match first {
        Token::Child(..) => are_children_row(rest),
        _ => false,
    }
}
