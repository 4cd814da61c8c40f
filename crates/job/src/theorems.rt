// A theorem about the definitions that the contracts use: it stands on a function's contract, so that the check asks for its proof.
ghost use Rattle.job.specs.Jobs.{JobsPrint};

// Every sound job, written out as bytes, prints its own lines.
pub fn jobs_hold()
    ensures { JobsPrint }
{}
