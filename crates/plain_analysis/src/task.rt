//! What an analysis works on.
#![tactic(auto)]

use crate::options::Options;
use c_tree::Program;
use std::alloc::Global;

/// The program that is analysed, how, and whence memory comes.
#[derive(Clone, Copy)]
pub(crate) struct Task<'a> {
    pub(crate) alloc: Global,
    pub(crate) program: &'a Program,
    pub(crate) options: &'a Options,
}
