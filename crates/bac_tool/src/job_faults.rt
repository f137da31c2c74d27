//! Why a job stops.

use bac_pack::PackFault;
use bac_stream::RunFault;

/// Why a job stopped.
#[derive(Clone, Copy, Debug, PartialEq, Eq)]
pub enum JobFault {
    /// A run over records stopped.
    Run(RunFault),
    /// No further line was packed or read.
    Pack(PackFault),
}

impl From<RunFault> for JobFault {
    ghost use Rattle.std.specs.Prelude.{◌≡◌};
    ghost use Rattle.bac_tool.specs.declared.job_faults.JobFault.TheVariants.{Run};

    ghost from_gives = { λ fault job_fault. job_fault ≡ Run fault };

    fn from(fault: RunFault) -> JobFault {
        JobFault::Run(fault)
    }
}

impl From<PackFault> for JobFault {
    ghost use Rattle.std.specs.Prelude.{◌≡◌};
    ghost use Rattle.bac_tool.specs.declared.job_faults.JobFault.TheVariants.{Pack};

    ghost from_gives = { λ fault job_fault. job_fault ≡ Pack fault };

    fn from(fault: PackFault) -> JobFault {
        JobFault::Pack(fault)
    }
}
