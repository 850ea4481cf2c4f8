//! Small proofs, with their obligations or their first refusal, worked out by hand from the rules.
mod auxiliary;
mod before;
mod blocks;
mod calls;
mod cases;
mod environment;
mod limits;
mod nows;
mod outcomes;
mod private;
mod schemes;
mod simple;
mod sizes;
mod skeletons;
mod unfoldings;
