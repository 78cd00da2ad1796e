//! The errors of runs, queries, comparisons and replays.
ghost use Rattle.std.specs.Prelude.{◌≡◌};
ghost use Rattle.rt_feed.specs.declared.faults.RunFault.TheVariants.{Memory};
ghost use Rattle.rt_run.specs.declared.faults.AppFault.TheVariants.{Run};

use rt_feed::RunFault;
use rt_rib::Refused;
use std::alloc::AllocError;
use thiserror::Error;
use ya_core::ReplayFault;

/// The reason why a run, query, comparison or replay failed.
#[derive(Clone, Copy, PartialEq, Eq, Debug, Error)]
pub enum AppFault {
    /// The run failed, and nothing was written.
    #[error("{0}")]
    Run(RunFault),
    /// The replay failed, and nothing was written.
    #[error("{0}")]
    Replay(ReplayFault),
    /// The output could not be written; a beginning of it was.
    #[error("cannot write")]
    Write,
}

impl From<RunFault> for AppFault {
    ghost from_gives = { λ refusal fault. fault ≡ Run refusal };

    fn from(refusal: RunFault) -> AppFault {
        AppFault::Run(refusal)
    }
}

/// A run fails if memory runs out outside of a command.
impl From<AllocError> for AppFault {
    ghost from_gives = { λ _ fault. fault ≡ Run Memory };

    fn from(_want: AllocError) -> AppFault {
        AppFault::Run(RunFault::Memory)
    }
}

/// A run fails if a call of the table runs out of memory.
impl From<Refused> for AppFault {
    ghost from_gives = { λ _ fault. fault ≡ Run Memory };

    fn from(_want: Refused) -> AppFault {
        AppFault::Run(RunFault::Memory)
    }
}
