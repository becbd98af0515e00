// What a search finds.
use crate::tree::Tree;

/// What a search within a budget found: the best solution, the nodes of all entries where the
/// budget was enough, and how many entries were listed.
#[derive(Drop)]
pub struct Found<N, S> {
    pub best: Option<S>,
    pub tree: Option<Tree<N>>,
    pub entries: u64,
}
