//! What holds of headings of registrations, each as the contract of a function that does nothing.
ghost use Rattle.mz_cluster_laws.specs.Laws.{OneClusterLaw, ClusterLaw};

/// What a heading is read to, and what is left behind it, is determined.
pub fn one_cluster_law()
    ensures { OneClusterLaw }
{}

/// What it is read to in a whole context of a closed environment is usable.
pub fn cluster_law()
    ensures { ClusterLaw }
{}
