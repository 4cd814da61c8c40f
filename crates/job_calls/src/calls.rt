// The calls of a job, made on the bench.
ghost use Rattle.std.specs.Prelude.{◌≡◌, ◌+◌, ◌^◌, ◌<◌, true, length, Err, string_bytes, MatchResult};
ghost use Rattle.scales.specs.Grey as scales;
ghost use Rattle.bench.specs.Settings.{standing, calling};
ghost use Rattle.bench.specs.Calls.{Filtered};
ghost use Rattle.records.specs.Reading.{taken};
ghost use Rattle.records.specs.Jobs.{call_record};
ghost use Rattle.job_calls.specs.Made.{asked, grey_setting};
ghost use Rattle.job_calls.specs.Lines.{number_of_answer};
ghost use Rattle.job_calls.specs.Calling.{takes_calls, Tried, Went};

use crate::call_line::CallLine;
use bench::{Bench, BenchFault};
use criteria::{Code, Criterion};
use maps::Map;
use morphology::Operation;
use records::{Cut, Reader, ReaderFault, Record, Stop};

// Takes a C.
fn take_call(
    mut reader: Reader,
    number: usize,
    bytes: &[u8; 8],
) -> Result<(Operation, u8), ReaderFault>
    requires { takes_calls reader.place ≡ true }
    ensures { MatchResult result (λ c. bytes.now ≡ call_record (calling c.0 c.1))
        (λ f. taken number reader.place bytes.now ≡ Err f) }
{
    match reader.take(number, bytes)? {
        Record::Call(operation, size) => Ok((operation, size)),
        _ => unreachable(),
    }
}

// Makes a call, with scratch of its own.
fn filter<C: Criterion<Value = u8>>(
    operation: Operation,
    size: u8,
    bench: &mut Bench,
    map: &Map<u8>,
    criterion: &C,
    picture: &mut [u8],
) -> Result<i8, BenchFault>
    ensures { Filtered (grey_setting (C.judgement criterion.now) map.now) (asked (calling operation size))
        (standing bench.old picture.old) result (standing bench.new picture.new) }
{
    let mut marks = [0u8; 4096];
    let mut queue = [0u32; 4096];
    let mut spare = [0u8; 4096];
    bench::filter(
        operation, size, bench, map, criterion, picture, &mut marks, &mut queue, &mut spare,
    )
}

// 0 for an accepted call, and else the number of its fault.
fn answer_number(answer: Result<i8, BenchFault>) -> u8
    ensures { result ≡ number_of_answer answer }
{
    match answer {
        Ok(_) => 0,
        Err(fault) => Code::from(fault).number,
    }
}

// Takes a C, makes its call and adds its line.
fn make_call<C: Criterion<Value = u8>>(
    reader: Reader,
    number: usize,
    bytes: &[u8; 8],
    bench: &mut Bench,
    map: &Map<u8>,
    criterion: &C,
    picture: &mut [u8],
    text: &mut String,
) -> Result<(), Stop>
    requires { takes_calls reader.place ≡ true }
    ensures { Tried (grey_setting (C.judgement criterion.now) map.now)
        number reader.place bytes.now
        (standing bench.old picture.old) (string_bytes text.old)
        result (standing bench.new picture.new) (string_bytes text.new) }
{
    let (operation, size) = take_call(reader, number, bytes)?;
    let answer = filter(operation, size, bench, map, criterion, picture);
    let level = bench.levels().present;
    let line = CallLine {
        operation,
        size,
        number: answer_number(answer),
        level,
    };
    write!(text, "{line}")?;
    Ok(())
}

// Makes the calls of these records, the first of which has the number `first`, until the end.
pub(crate) fn make_calls<C: Criterion<Value = u8>>(
    reader: Reader,
    first: usize,
    cut: Cut,
    bench: &mut Bench,
    map: &Map<u8>,
    criterion: &C,
    picture: &mut [u8],
    text: &mut String,
) -> Result<(), Stop>
    requires calls { takes_calls reader.place ≡ true }
    requires numbers { first + length cut.records.now < 2 ^ 64 }
    ensures { Went (grey_setting (C.judgement criterion.now) map.now)
        first reader.place cut.entry.records.now cut.entry.left
        (standing bench.old picture.old) (string_bytes text.old)
        result (standing bench.new picture.new) (string_bytes text.new) }
{
    for (index, bytes) in cut.records.iter().enumerate() {
        make_call(
            reader,
            first + index,
            bytes,
            bench,
            map,
            criterion,
            picture,
            text,
        )?;
    }
    reader.end(first + cut.records.len(), cut.left)?;
    Ok(())
}
