//! Nodes and depths, each counted up to one above its limit.
ghost use Rattle.std.specs.Prelude.{◌≡◌};
ghost use Rattle.mz_instance_sizes.specs.Sizes.{nothing, leaf, above, beside, is_kept};

/// How large something is: its nodes, of which 65,537 stand for any number above 65,536, and its depth, of which 513 stands for any above
/// 512.
#[derive(Clone, Copy, Debug, PartialEq, Eq)]
pub struct Size {
    pub nodes: u32,
    pub depth: u32,
}

/// An index, a constant, or truth.
pub fn leaf() -> Size
    ensures { result ≡ leaf }
{
    Size { nodes: 1, depth: 1 }
}

/// No nodes.
pub fn nothing() -> Size
    ensures { result ≡ nothing }
{
    Size { nodes: 0, depth: 0 }
}

impl Size {
    /// What has this alone below it.
    pub fn above(self) -> Size
        ensures { result ≡ above self }
    {
        Size {
            nodes: self.nodes.saturating_add(1).min(65537),
            depth: self.depth.saturating_add(1).min(513),
        }
    }

    /// The two beside each other.
    pub fn beside(self, other: Size) -> Size
        ensures { result ≡ beside self other }
    {
        Size {
            nodes: self.nodes.saturating_add(other.nodes).min(65537),
            depth: self.depth.max(other.depth).min(513),
        }
    }

    /// Whether both are within the limits.
    pub fn is_kept(self) -> bool
        ensures { result ≡ is_kept self }
    {
        self.nodes <= 65536 && self.depth <= 512
    }
}
