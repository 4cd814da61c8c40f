// What a job prints.
ghost use Rattle.std.specs.Prelude.{◌≡◌, [], IfOk, string_bytes};
ghost use Rattle.records.specs.Jobs.{records_in, left_over};
ghost use Rattle.records.specs.Reading.{judged};
ghost use Rattle.job_calls.specs.Ends.{AfterCalls, Ends};
ghost use Rattle.job_calls.specs.Prints.{Ending, Printed, rows_and_note, inclusions};

use crate::calls::make_calls;
use crate::seating::seat_at;
use crate::tile::{TakenTile, read_tile};
use crate::view::{Done, Inclusions, RowsAndNote, View};
use bench::Bench;
use criteria::{Criterion, Step, Tone, Turn};
use maps::Map;
use records::{ByteCriterion, Cut, Stop};
use std::alloc::{AllocError, Global};

impl TakenTile<'_> {
    // Seats the picture, and makes the calls of the records after it.
    fn filter<C: Criterion<Value = u8>>(
        &self,
        criterion: &C,
        picture: &mut [u8],
        text: &mut String,
    ) -> Result<Bench, Stop>
        requires judged { C.judgement criterion.now ≡ judged self.now.head }
        requires picture { picture.old ≡ self.now.bytes.picture.items }
        requires text { string_bytes text.old ≡ [] }
        ensures { (ending : Ending) → AfterCalls ending self.now.cut.records.now self.now.cut.left
            self.now.head self.now.bytes.picture.items result picture.new (string_bytes text.new) }
    {
        let taken = self.taken;
        let mut map = Map::empty();
        let mut bench = seat_at(
            taken - 1,
            self.head,
            criterion,
            &mut map,
            &self.bytes.map,
            picture,
        )?;
        make_calls(
            self.reader,
            taken,
            Cut {
                records: &self.cut.records[taken..],
                left: self.cut.left,
            },
            &mut bench,
            &map,
            criterion,
            picture,
            text,
        )?;
        Ok(bench)
    }

    // Filters a copy of the tile by this criterion, and adds the lines of its calls and the ending.
    fn finish_by<V: View, C: Criterion<Value = u8>>(
        &self,
        criterion: &C,
        heap: Global,
        text: &mut String,
    ) -> Result<(), Stop>
        requires judged { C.judgement criterion.now ≡ judged self.now.head }
        requires text { string_bytes text.old ≡ [] }
        ensures { Ends V.ending self.now.cut.records.now self.now.cut.left result (string_bytes text.new) }
    {
        let mut picture = self.bytes.picture.to_vec(heap)?;
        let bench = self.filter(criterion, &mut picture, text)?;
        let levels = bench.levels();
        let done = Done {
            head: self.head,
            taken: &self.bytes.picture,
            filtered: &picture,
            levels,
            count: bench::finish(bench).strike(),
        };
        V::push(text, done)?;
        Ok(())
    }

    // The same by the criterion that the tile's head asks for. It is told apart here, once a job: a flood that asks at each test which
    // of the three it has takes up to half as long again.
    fn finish<V: View>(&self, heap: Global, text: &mut String) -> Result<(), Stop>
        requires { string_bytes text.old ≡ [] }
        ensures { Ends V.ending self.now.cut.records.now self.now.cut.left result (string_bytes text.new) }
    {
        match self.head.criterion()? {
            ByteCriterion::Step(step) => self.finish_by::<V, Step>(&step, heap, text),
            ByteCriterion::Tone(tone) => self.finish_by::<V, Tone>(&tone, heap, text),
            ByteCriterion::Turn(turn) => self.finish_by::<V, Turn>(&turn, heap, text),
        }
    }
}

// Does a job, and adds what it prints to the text, all but the line of a fault.
fn run<V: View>(heap: Global, job: &[u8], text: &mut String) -> Result<(), Stop>
    requires { string_bytes text.old ≡ [] }
    ensures { Ends V.ending (records_in job.now) (left_over job.now) result (string_bytes text.new) }
{
    let tile = read_tile(heap, Cut::of(job))?;
    tile.finish::<V>(heap, text)
}

// What a job prints in this view: every byte string is a job.
fn print<V: View>(heap: Global, job: &[u8]) -> Result<String, AllocError>
    ensures { IfOk result (λ text. Printed V.ending job.now (string_bytes text)) }
{
    let mut text = String::new(heap);
    match run::<V>(heap, job, &mut text) {
        Ok(()) => Ok(text),
        Err(Stop::Fault(fault)) => {
            writeln!(text, "{fault}")?;
            Ok(text)
        }
        Err(Stop::Memory(error)) => Err(error),
    }
}

// What a job prints: a line for each call, then the rows and the note, or the fault that ends it. The text, or an error where
// memory is wanting, and then no text.
pub fn report(heap: Global, job: &[u8]) -> Result<String, AllocError>
    ensures { IfOk result (λ text. Printed rows_and_note job.now (string_bytes text)) }
{
    print::<RowsAndNote>(heap, job)
}

// The same with the residue and the count of pixels that differ in place of rows and note.
pub fn measure(heap: Global, job: &[u8]) -> Result<String, AllocError>
    ensures { IfOk result (λ text. Printed inclusions job.now (string_bytes text)) }
{
    print::<Inclusions>(heap, job)
}
