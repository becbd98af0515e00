// Edges.
ghost use Rattle.std.specs.Prelude.{◌≡◌};
ghost use Rattle.walks.specs.Walks.{across};

/// An edge of a network, which is driven either way. Its ends are indexes of stops, its length is
/// in millionths, and its bounds are the least and the greatest minutes of a drive.
#[derive(Clone, Copy, Debug, PartialEq, Eq)]
pub struct Edge {
    pub id: i64,
    pub left: usize,
    pub right: usize,
    pub length: i64,
    pub lower: i64,
    pub upper: i64,
}

impl Edge {
    /// The stop at the other end, where a stop is one of its ends.
    pub fn across(&self, stop: usize) -> Option<usize>
        ensures { result ≡ across self.now stop }
    {
        if self.left == stop {
            Some(self.right)
        } else if self.right == stop {
            Some(self.left)
        } else {
            None
        }
    }
}
