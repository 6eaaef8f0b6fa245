//! Threads, triggers, propagators and the status of a space under other names.
ghost use Rattle.oz_semantics.specs.Renamings.{renamed_code, renamed_frame, renamed_thread, renamed_trigger, renamed_propagator, renamed_status};

use crate::Renamed;
use oz_base::Copies;
use oz_semantics::{Code, Frame, Propagator, Status, Thread, Trigger};
use renamings::Renaming;
use std::alloc::{AllocError, Global};

impl Renamed for Code {
    ghost renamed = { renamed_code };

    fn renamed(&self, alloc: Global, by: &Renaming) -> Result<Self, AllocError> {
        match self {
            Code::Statement(number) => Ok(Code::Statement(*number)),
            Code::Call {
                procedure,
                argument,
            } => Ok(Code::Call {
                procedure: procedure.renamed(alloc, by)?,
                argument: argument.renamed(alloc, by)?,
            }),
            Code::Bind { variable, number } => Ok(Code::Bind {
                variable: variable.renamed(alloc, by)?,
                number: *number,
            }),
            Code::Mark { exception, handler } => Ok(Code::Mark {
                exception: *exception,
                handler: handler.copied(alloc)?,
            }),
        }
    }
}

impl Renamed for Frame {
    ghost renamed = { renamed_frame };

    fn renamed(&self, alloc: Global, by: &Renaming) -> Result<Self, AllocError> {
        Ok(Frame {
            code: self.code.renamed(alloc, by)?,
            environment: self.environment.renamed(alloc, by)?,
        })
    }
}

impl Renamed for Thread {
    ghost renamed = { renamed_thread };

    fn renamed(&self, alloc: Global, by: &Renaming) -> Result<Self, AllocError> {
        Ok(Thread {
            number: self.number,
            frames: self.frames.renamed(alloc, by)?,
        })
    }
}

impl Renamed for Trigger {
    ghost renamed = { renamed_trigger };

    fn renamed(&self, alloc: Global, by: &Renaming) -> Result<Self, AllocError> {
        Ok(Trigger {
            procedure: self.procedure.renamed(alloc, by)?,
            variable: self.variable.renamed(alloc, by)?,
        })
    }
}

impl Renamed for Propagator {
    ghost renamed = { renamed_propagator };

    fn renamed(&self, alloc: Global, by: &Renaming) -> Result<Self, AllocError> {
        Ok(Propagator {
            relation: self.relation.copied(alloc)?,
            variables: self.variables.renamed(alloc, by)?,
            last: self.last.copied(alloc)?,
        })
    }
}

impl Renamed for Status {
    ghost renamed = { renamed_status };

    fn renamed(&self, alloc: Global, by: &Renaming) -> Result<Self, AllocError> {
        match self {
            Status::Open => Ok(Status::Open),
            Status::Failed => Ok(Status::Failed),
            Status::Raised(exception) => Ok(Status::Raised(exception.renamed(alloc, by)?)),
            Status::Merged => Ok(Status::Merged),
        }
    }
}
