//! Whole runs, with their bytes and statuses written by hand. Memory is ample, so none is answered by the want of it.
mod articles;
mod bare;
mod definitions;
mod libraries;
mod shared;
mod threads;
