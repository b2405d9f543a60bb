//! A worker of a run.

ghost use Rattle.gib_pool.specs.Mine.{IsMine};

use crate::forks::Forks;
use crate::stealer::Stealer;
use crate::workspace::Workspace;

/// A worker: its number, its own forks, a stealer of those of each other worker, and the workspace in which it runs what it steals; none where
/// it steals nothing.
#[derive(Drop)]
pub(crate) struct Worker<'a> {
    pub(crate) number: u32,
    pub(crate) forks: Forks<'a>,
    pub(crate) stealers: Vec<Stealer<'a>>,
    pub(crate) workspace: Option<Box<Workspace>>,
    ghost mine: { IsMine forks },
}
