// Theorems about the definitions that the contracts use: each stands on a function's contract, so that the check asks for its proof.
ghost use Rattle.records.specs.Encoding.{LawsOfRecords};

// Reading a record and writing it are each other's inverse.
pub fn records_hold()
    ensures { LawsOfRecords }
{}
