// The text that a job prints.
ghost use Rattle.std.specs.Prelude.{◌≡◌, length, None, IfOk, Some, string_bytes};
ghost use Rattle.maps.specs.Checks.{first_fault};
ghost use Rattle.records.specs.Records.{pixels};
ghost use Rattle.records.specs.Reading.{head_checks};
ghost use Rattle.job.specs.Lines.{not_made};
ghost use Rattle.job.specs.Texts.{sound_text, fault_ending, job_text};

use crate::reading::JobReader;
use lines::Rows;
use records::{Head, ReaderFault, Stop};
use std::alloc::{AllocError, Global};
use std::fmt;

// How many calls were not made, as a line, where there were any.
#[derive(Clone, Copy)]
struct NotMade(usize);

impl fmt::Display for NotMade {
    ghost output = { λ n. Some (not_made n.0) };

    fn fmt<W: fmt::Write>(&self, f: &mut fmt::Formatter<W>) -> fmt::Result {
        let calls = self.0;
        if calls == 0 {
            return Ok(());
        }
        writeln!(f, "calls not made: {calls}")
    }
}

// The text of a sound job.
fn sound_report(
    heap: Global,
    head: Head,
    calls: usize,
    picture: &[u8],
) -> Result<String, AllocError>
    requires passed { first_fault (head_checks head) ≡ None }
    requires rows { length picture.now ≡ pixels head }
    ensures { IfOk result (λ text. string_bytes text ≡ sound_text head calls picture.now) }
{
    if calls != 0 {
        return NotMade(calls).to_string(heap);
    }
    let rows = Rows {
        width: usize::from(head.width),
        picture,
    };
    format!(in heap; "{rows}note 0 0 0 0\n")
}

// The text of a job that a fault ends.
fn fault_report(heap: Global, calls: usize, fault: ReaderFault) -> Result<String, AllocError>
    ensures { IfOk result (λ text. string_bytes text ≡ fault_ending fault calls) }
{
    format!(in heap; "{}{fault}\n", NotMade(calls))
}

// What a job prints: every byte string is a job. The text, or an error where memory is wanting.
pub fn report(heap: Global, job: &[u8]) -> Result<String, AllocError>
    ensures { IfOk result (λ text. string_bytes text ≡ job_text job.now) }
{
    let mut reader = JobReader::new(heap);
    match reader.read(job) {
        Ok(head) => sound_report(heap, head, reader.calls, &reader.tile.picture),
        Err(Stop::Fault(fault)) => fault_report(heap, reader.calls, fault),
        Err(Stop::Memory(error)) => Err(error),
    }
}
