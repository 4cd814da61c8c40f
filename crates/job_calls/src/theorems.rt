// A theorem about the definitions that the contracts use: it stands on a function's contract, so that the check asks for its proof.
ghost use Rattle.job_calls.specs.Laws.{LawsOfJobs};
ghost use Rattle.job_calls.specs.Prints.{Ending};

// Every byte string is the bytes of exactly one sound job or has exactly one first bad record, and prints one text.
pub fn jobs_hold()
    ensures { (ending : Ending) → LawsOfJobs ending }
{}
