//! Parts of trees, as they are put at the end of a row.

ghost use Rattle.std.specs.Prelude.{◌≡◌, ◌++◌, OnOk};
ghost use Rattle.certificate_graph.specs.Rows.{one_branch_row, branches_row, children_row};
ghost use Rattle.certificate_graph.specs.Trees.{branches_of};

use crate::children::Child;
use crate::rows::Token;
use crate::trees::Tree;
use pattern_step::PatCard;
use std::alloc::AllocError;

/// Puts the children of a leaf at the end of a row.
pub(crate) fn push_children(row: &mut Vec<Token>, children: &[Child]) -> Result<(), AllocError>
    ensures { OnOk result (row.new.items ≡ row.old.items ++ children_row children.now) }
{
    for child in children {
        row.push(Token::Child(child.winner, child.number))?;
    }
    Ok(())
}

/// Puts a branch at the end of a row. Fails where over 4,294,967,295 tokens follow its card, for which there is no
/// memory.
fn push_branch(row: &mut Vec<Token>, card: PatCard, below: &Tree) -> Result<(), AllocError>
    ensures { OnOk result (row.new.items ≡ row.old.items ++ one_branch_row card below.now) }
{
    let tokens = below.tokens();
    let Ok(count) = u32::try_from(tokens.len()) else {
        return Err(AllocError);
    };
    row.push(Token::Branch(card, count))?;
    row.extend_from_slice(tokens)
}

/// Puts branches at the end of a row. Fails as [`push_branch`] does.
pub(crate) fn push_branches(
    row: &mut Vec<Token>,
    branches: &[(PatCard, Tree)],
) -> Result<(), AllocError>
    ensures { OnOk result (row.new.items ≡ row.old.items ++ branches_row (branches_of branches.now)) }
{
    for branch in branches {
        push_branch(row, branch.0, &branch.1)?;
    }
    Ok(())
}
