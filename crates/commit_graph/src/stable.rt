ghost use Rattle.std.specs.Prelude.{◌≡◌, ℕ, ◌<◌, ◌++◌, List, Option, length};
ghost use Rattle.commit_graph.specs.Graphs.{ancestor_at, has_ancestor, HasDepth, IsGraph};

/// Commits that are added leave the ancestors and the depths of those before them as they were.
pub fn is_stable()
    ensures ancestors { (graph more : List (Option ℕ)) (c k : ℕ) → IsGraph graph → c < length graph
        → ancestor_at (graph ++ more) c k ≡ ancestor_at graph c k }
    ensures depths { (graph more : List (Option ℕ)) (c d : ℕ) → IsGraph graph → c < length graph
        → HasDepth graph c d → HasDepth (graph ++ more) c d }
    ensures ancestry { (graph more : List (Option ℕ)) (a c : ℕ) → IsGraph graph → c < length graph
        → has_ancestor (graph ++ more) a c ≡ has_ancestor graph a c }
{}
