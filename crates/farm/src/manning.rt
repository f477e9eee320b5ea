//! From chairs and ends of relays to posts, and back.

ghost use Rattle.std.specs.Prelude.{◌≡◌, ◌+◌, ◌≤◌, [], ◌∷◌, ◌++◌, All, IfOk, length, map};
ghost use Rattle.farm.specs.Posts.{AreManned, CanBeManned};

use crate::posts::{CheckerPost, ClerkPost, LenderPost, Posts, SolverPost};
use crate::relays::RelayEnds;
use crate::tasks::{CheckedClaim, FoundBundle, Group};
use farm_relay::{Putter, Taker};
use lease_desk::Chair;
use std::alloc::{AllocError, Global};
use std::collections::VecDeque;

/// Makes the post of the lender, at the first of the chairs, with the only one of these ends.
fn lender_post(chairs: &mut VecDeque<Chair>, lent: Vec<Putter<Group>>) -> LenderPost
    requires chairs { 1 ≤ length chairs.old.items }
    requires lent { length lent.items ≡ 1 }
    ensures chairs { chairs.old.items ≡ result.chair ∷ chairs.new.items }
    ensures lent { lent.items ≡ result.groups ∷ [] }
{
    let mut lent = VecDeque::from(lent);
    let Some(chair) = chairs.pop_front() else {
        unreachable!()
    };
    let Some(groups) = lent.pop_front() else {
        unreachable!()
    };
    LenderPost { chair, groups }
}

/// Makes the posts of solvers, at the first of the chairs.
fn solver_posts(
    alloc: Global,
    chairs: &mut VecDeque<Chair>,
    groups: Vec<Taker<Group>>,
    finds: Vec<Putter<FoundBundle>>,
) -> Result<Vec<SolverPost>, AllocError>
    requires chairs { length finds.items ≤ length chairs.old.items }
    requires ends { length finds.items ≡ length groups.items }
    ensures chairs { IfOk result (λ posts. chairs.old.items ≡ map (λ post. post.chair) posts.items
        ++ chairs.new.items) }
    ensures groups { IfOk result (λ posts. groups.items ≡ map (λ post. post.groups) posts.items) }
    ensures finds { IfOk result (λ posts. finds.items ≡ map (λ post. post.found) posts.items) }
    ensures steps { IfOk result (λ posts. All (λ post. post.steps ≡ 0) posts.items) }
{
    let mut posts = Vec::with_capacity(alloc, finds.len())?;
    let mut groups = VecDeque::from(groups);
    for found in finds {
        let Some(chair) = chairs.pop_front() else {
            unreachable!()
        };
        let Some(taker) = groups.pop_front() else {
            unreachable!()
        };
        posts.push(SolverPost {
            chair,
            groups: taker,
            found,
            steps: 0,
        })?;
    }
    Ok(posts)
}

/// Makes the posts of checkers.
fn checker_posts(
    alloc: Global,
    found: Vec<Taker<FoundBundle>>,
    claims: Vec<Putter<CheckedClaim>>,
) -> Result<Vec<CheckerPost>, AllocError>
    requires { length found.items ≡ length claims.items }
    ensures found { IfOk result (λ posts. found.items ≡ map (λ post. post.found) posts.items) }
    ensures claims { IfOk result (λ posts. claims.items ≡ map (λ post. post.claims) posts.items) }
{
    let mut posts = Vec::with_capacity(alloc, found.len())?;
    let mut claims = VecDeque::from(claims);
    for taker in found {
        let Some(putter) = claims.pop_front() else {
            unreachable!()
        };
        posts.push(CheckerPost {
            found: taker,
            claims: putter,
        })?;
    }
    Ok(posts)
}

/// Makes the posts of clerks, at all these chairs.
fn clerk_posts(
    alloc: Global,
    chairs: VecDeque<Chair>,
    heard: Vec<Taker<CheckedClaim>>,
) -> Result<Vec<ClerkPost>, AllocError>
    requires { length chairs.items ≡ length heard.items }
    ensures chairs { IfOk result (λ posts. chairs.items ≡ map (λ post. post.chair) posts.items) }
    ensures heard { IfOk result (λ posts. heard.items ≡ map (λ post. post.claims) posts.items) }
{
    let mut posts = Vec::with_capacity(alloc, heard.len())?;
    let mut chairs = chairs;
    for claims in heard {
        let Some(chair) = chairs.pop_front() else {
            unreachable!()
        };
        posts.push(ClerkPost { chair, claims })?;
    }
    Ok(posts)
}

/// Returns the chair and the end of the lender's post.
fn lender_apart(
    alloc: Global,
    post: LenderPost,
) -> Result<(Vec<Chair>, Vec<Putter<Group>>), AllocError>
    ensures chair { IfOk result (λ apart. apart.0.items ≡ post.chair ∷ []) }
    ensures lent { IfOk result (λ apart. apart.1.items ≡ post.groups ∷ []) }
{
    let LenderPost { chair, groups } = post;
    let mut chairs = Vec::with_capacity(alloc, 1)?;
    let mut lent = Vec::with_capacity(alloc, 1)?;
    chairs.push(chair)?;
    lent.push(groups)?;
    Ok((chairs, lent))
}

/// The chairs and the ends of solvers' posts.
type SolversApart = (Vec<Chair>, Vec<Taker<Group>>, Vec<Putter<FoundBundle>>);

/// Returns the chairs and the ends of solvers' posts.
fn solvers_apart(alloc: Global, posts: Vec<SolverPost>) -> Result<SolversApart, AllocError>
    ensures chairs { IfOk result (λ apart. apart.0.items ≡ map (λ post. post.chair) posts.items) }
    ensures groups { IfOk result (λ apart. apart.1.items ≡ map (λ post. post.groups) posts.items) }
    ensures finds { IfOk result (λ apart. apart.2.items ≡ map (λ post. post.found) posts.items) }
{
    let mut chairs = Vec::with_capacity(alloc, posts.len())?;
    let mut groups = Vec::with_capacity(alloc, posts.len())?;
    let mut finds = Vec::with_capacity(alloc, posts.len())?;
    for post in posts {
        chairs.push(post.chair)?;
        groups.push(post.groups)?;
        finds.push(post.found)?;
    }
    Ok((chairs, groups, finds))
}

/// Returns the ends of checkers' posts.
fn checkers_apart(
    alloc: Global,
    posts: Vec<CheckerPost>,
) -> Result<(Vec<Taker<FoundBundle>>, Vec<Putter<CheckedClaim>>), AllocError>
    ensures found { IfOk result (λ apart. apart.0.items ≡ map (λ post. post.found) posts.items) }
    ensures claims { IfOk result (λ apart. apart.1.items ≡ map (λ post. post.claims) posts.items) }
{
    let mut found = Vec::with_capacity(alloc, posts.len())?;
    let mut claims = Vec::with_capacity(alloc, posts.len())?;
    for post in posts {
        found.push(post.found)?;
        claims.push(post.claims)?;
    }
    Ok((found, claims))
}

/// Returns the chairs and the ends of clerks' posts.
fn clerks_apart(
    alloc: Global,
    posts: Vec<ClerkPost>,
) -> Result<(Vec<Chair>, Vec<Taker<CheckedClaim>>), AllocError>
    ensures chairs { IfOk result (λ apart. apart.0.items ≡ map (λ post. post.chair) posts.items) }
    ensures heard { IfOk result (λ apart. apart.1.items ≡ map (λ post. post.claims) posts.items) }
{
    let mut chairs = Vec::with_capacity(alloc, posts.len())?;
    let mut heard = Vec::with_capacity(alloc, posts.len())?;
    for post in posts {
        chairs.push(post.chair)?;
        heard.push(post.claims)?;
    }
    Ok((chairs, heard))
}

impl Posts {
    /// Makes posts with these chairs and ends: the lender's at the first of the chairs, and the solvers' after it.
    pub(crate) fn of(
        alloc: Global,
        chairs: Vec<Chair>,
        ends: RelayEnds,
    ) -> Result<(LenderPost, Posts), AllocError>
        requires { CanBeManned chairs.items ends }
        ensures manned { IfOk result (λ made. AreManned chairs.items ends made.0 made.1) }
        ensures steps { IfOk result (λ made. All (λ post. post.steps ≡ 0) made.1.solvers.items) }
    {
        let RelayEnds {
            lent,
            groups,
            finds,
            found,
            claims,
            heard,
        } = ends;
        let mut chairs = VecDeque::from(chairs);
        let lender = lender_post(&mut chairs, lent);
        let solvers = solver_posts(alloc, &mut chairs, groups, finds)?;
        let checkers = checker_posts(alloc, found, claims)?;
        let clerks = clerk_posts(alloc, chairs, heard)?;
        let posts = Posts {
            solvers,
            checkers,
            clerks,
        };
        Ok((lender, posts))
    }

    /// Returns the chairs, the lender's first and then the solvers', and the ends.
    pub(crate) fn apart(
        self,
        alloc: Global,
        lender: LenderPost,
    ) -> Result<(Vec<Chair>, RelayEnds), AllocError>
        ensures { IfOk result (λ apart. AreManned apart.0.items apart.1 lender self) }
    {
        let Posts {
            solvers,
            checkers,
            clerks,
        } = self;
        let (chairs, lent) = lender_apart(alloc, lender)?;
        let (solved, groups, finds) = solvers_apart(alloc, solvers)?;
        let (found, claims) = checkers_apart(alloc, checkers)?;
        let (settled, heard) = clerks_apart(alloc, clerks)?;
        let (mut chairs, mut solved, mut settled) = (chairs, solved, settled);
        solved.append(&mut settled)?;
        chairs.append(&mut solved)?;
        let ends = RelayEnds {
            lent,
            groups,
            finds,
            found,
            claims,
            heard,
        };
        Ok((chairs, ends))
    }
}
