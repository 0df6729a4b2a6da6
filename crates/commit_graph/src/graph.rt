ghost use Rattle.std.specs.Prelude.{◌≡◌, ℕ, ◌<◌, ◌≤◌, ◌↔◌, [], ◌∷◌, ◌++◌, length, IfOk, IfSome, IsErrOf, IsSomeAnd, IsTrue, Some};
ghost use Rattle.commit_graph.specs.Graphs.{previous_of, ancestor_at, has_ancestor, HasDepth, IsGraph, IsEarlier};
ghost use Rattle.commit_graph.specs.Kept.{previous_numbers, IsCommit, IsKept, IsMet};

use crate::error::AddError;
use pmap::PList;
use std::alloc::Global;
use std::marker::Model;
use std::sync::Arc;
use sysapi_base::Memory;

/// A commit, how many commits its ancestry has before it, and one of these to jump to, which is itself where there is none.
#[derive(Clone, Copy)]
struct Commit {
    previous: Option<u64>,
    depth: u64,
    jump: u64,
}

/// Commits by number from 0 on, each with at most one previous, which is earlier. It is seen as the list of the previous
/// numbers. A commit makes a new graph and leaves the one before as it was; both share the commits.
#[derive(Drop)]
pub struct Graph {
    commits: Option<Arc<PList<Commit>>>,
}

impl Model for Graph {
    ghost use Rattle.std.specs.Prelude.{ℕ, List, Option};

    ghost Value = { List (Option ℕ) };

    ghost use Rattle.commit_graph.specs.Kept.{previous_numbers, IsKept};
    ghost use Rattle.commit_graph.specs.Shared.{shared_commits};

    ghost view = { λ a. previous_numbers (shared_commits a.commits) };

    ghost invariant = { λ a. IsKept (shared_commits a.commits) };
}

impl Graph {
    /// No commits. It takes no memory.
    pub fn new() -> Graph
        ensures { result ≡ [] }
    {
        Graph { commits: None }
    }

    /// An equal graph. It copies no content, and fails only where no further owner can be counted.
    pub fn share(&self) -> Result<Graph, Memory>
        ensures { IfOk result (λ g. g ≡ self.now) }
    {
        let commits = match &self.commits {
            Some(commits) => Some(Arc::try_clone(commits)?),
            None => None,
        };
        Ok(Graph { commits })
    }

    /// How many commits there are. Each previous of them is earlier.
    pub fn len(&self) -> u64
        ensures count { result ≡ length self.now }
        ensures earlier { IsGraph self.now }
    {
        match &self.commits {
            Some(commits) => commits.len(),
            None => 0,
        }
    }

    /// The graph with one more commit, and that commit's number, which is the old length. The error is UnknownPrevious exactly
    /// where there is no commit of the previous number.
    pub fn add(&self, alloc: Global, previous: Option<u64>) -> Result<(Graph, u64), AddError>
        ensures graph { IfOk result (λ r. r.0 ≡ self.now ++ previous ∷ []) }
        ensures number { IfOk result (λ r. r.1 ≡ length self.now) }
        ensures unknown { IsErrOf result AddError.UnknownPrevious
            ↔ IsSomeAnd previous (λ p. length self.now ≤ p) }
    {
        let number = self.len();
        if previous.is_some_and(|p| p >= number) {
            return Err(AddError::UnknownPrevious);
        }
        let graph = self.with(alloc, self.commit_behind(previous))?;
        Ok((graph, number))
    }

    /// The previous commit, if there is one. It is earlier.
    pub fn previous(&self, c: u64) -> Option<u64>
        requires { c < length self.now }
        ensures previous { result ≡ previous_of self.now c }
        ensures earlier { IfSome result (λ p. p < c) }
    {
        self.commit(c).previous
    }

    /// How many commits the ancestry has before this one. It is kept with the commit.
    pub fn depth(&self, c: u64) -> u64
        requires { c < length self.now }
        ensures depth { HasDepth self.now c result }
        ensures below { result ≤ c }
    {
        self.commit(c).depth
    }

    /// The commit that is reached by going to the previous one so many times, if there is one. It goes there by jumps, and by
    /// single steps where a jump would overshoot: they grow as the logarithm of the depth. No clause counts them.
    pub fn ancestor(&self, c: u64, k: u64) -> Option<u64>
        requires { c < length self.now }
        ensures { result ≡ ancestor_at self.now c k }
    {
        let depth = self.commit(c).depth.checked_sub(k)?;
        Some(self.at_depth(c, depth))
    }

    /// Whether the first commit is the second or stands in its ancestry. It goes from the second to the depth of the first, as
    /// `ancestor` does.
    pub fn is_ancestor(&self, a: u64, c: u64) -> bool
        requires a { a < length self.now }
        requires c { c < length self.now }
        ensures steps { IsTrue result ↔ ((k : ℕ) × (ancestor_at self.now c k ≡ Some a)) }
        ensures told { result ≡ has_ancestor self.now a c }
    {
        let depth = self.commit(a).depth;
        if self.commit(c).depth < depth {
            return false;
        }
        self.at_depth(c, depth) == a
    }

    // The commit of this depth that is this one or stands in its ancestry.
    fn at_depth(&self, c: u64, depth: u64) -> u64
        requires c { c < length self.now }
        requires depth { (d : ℕ) → HasDepth self.now c d → depth ≤ d }
        ensures met { IsMet self.now c result }
        ensures depth { HasDepth self.now result depth }
    {
        let mut commit = c;
        while self.depth(commit) > depth {
            commit = self.nearer(commit, depth);
        }
        commit
    }

    // One step to the commit of this depth: the jump where it doesn't overshoot, else the previous commit.
    fn nearer(&self, c: u64, depth: u64) -> u64
        requires c { c < length self.now }
        requires depth { (d : ℕ) → HasDepth self.now c d → depth < d }
        ensures met { IsMet self.now c result }
        ensures depth { (d : ℕ) → HasDepth self.now result d → depth ≤ d }
        ensures earlier { result < c }
    {
        let commit = self.commit(c);
        if self.depth(commit.jump) >= depth {
            commit.jump
        } else {
            commit.previous.unwrap()
        }
    }

    // The commit that comes behind this previous one.
    fn commit_behind(&self, previous: Option<u64>) -> Commit
        requires { IsEarlier self.now previous }
        ensures previous { result.previous ≡ previous }
        ensures kept { IsCommit (self.now ++ previous ∷ []) (length self.now) result }
    {
        let number = self.len();
        match previous {
            Some(p) => Commit {
                previous,
                depth: self.depth(p) + 1,
                jump: self.jump_behind(p),
            },
            None => Commit {
                previous,
                depth: 0,
                jump: number,
            },
        }
    }

    // Where a commit behind this one jumps to: two jumps of one length make one of twice that and one more.
    fn jump_behind(&self, p: u64) -> u64
        requires { p < length self.now }
        ensures met { IsMet self.now p result }
        ensures below { result ≤ p }
    {
        let last = self.commit(p);
        let middle = self.commit(last.jump);
        let first = self.commit(middle.jump);
        if last.depth - middle.depth == middle.depth - first.depth {
            middle.jump
        } else {
            p
        }
    }

    // The graph with this commit behind its own.
    fn with(&self, alloc: Global, commit: Commit) -> Result<Graph, Memory>
        requires previous { IsEarlier self.now commit.previous }
        requires kept { IsCommit (self.now ++ commit.previous ∷ []) (length self.now) commit }
        ensures { IfOk result (λ g. g ≡ self.now ++ commit.previous ∷ []) }
    {
        let commits = self.list()?.push(alloc, Arc::new(alloc, commit)?)?;
        Ok(Graph {
            commits: Some(Arc::new(alloc, commits)?),
        })
    }

    // The commits, of one owner more.
    fn list(&self) -> Result<PList<Commit>, Memory>
        ensures seen { IfOk result (λ l. previous_numbers l ≡ self.now) }
        ensures kept { IfOk result (λ l. IsKept l) }
    {
        match &self.commits {
            Some(commits) => commits.share(),
            None => Ok(PList::new()),
        }
    }

    fn commit(&self, c: u64) -> Commit
        requires { c < length self.now }
        ensures graph { IsGraph self.now }
        ensures kept { IsCommit self.now c result }
    {
        match &self.commits {
            Some(commits) => *commits.get(c).unwrap(),
            None => unreachable!(),
        }
    }
}
