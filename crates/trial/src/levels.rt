// Calls near the highest level.
use crate::failure::Failure;
use bench::{Bench, BenchFault};
use criteria::{Code, MapFault, Step, Tolerance};
use lines::FaultText;
use maps::Map;
use morphology::Operation;
use std::io;

fn call(
    bench: &mut Bench,
    map: &Map<u8>,
    step: &Step,
    operation: Operation,
    size: u8,
) -> Result<i8, BenchFault> {
    let mut picture = [7u8];
    let mut marks = [0];
    let mut queue = [0];
    let mut spare = [0u8];
    bench::filter(
        operation,
        size,
        bench,
        map,
        step,
        &mut picture,
        &mut marks,
        &mut queue,
        &mut spare,
    )
}

fn print_answer(
    rt: &impl Print,
    letter: char,
    size: u8,
    answer: Result<i8, BenchFault>,
) -> io::Result<()> {
    match answer {
        Ok(level) => println!(rt; "{letter} {size}: {level}"),
        Err(fault) => {
            let fault = FaultText {
                code: Code::from(fault),
                at: None,
            };
            println!(rt; "{letter} {size}: {fault}")
        }
    }
}

// On a tile of one pixel: four dilates of 15 lead to level 60.
pub fn try_levels(rt: &impl Print) -> Result<(), Failure> {
    let step = Step::try_from(Tolerance::Step(0))?;
    let values = [0];
    let mut map = Map::empty();
    map.make(1, 1, 4, &values)?;
    let mut seated = bench::seat(&map, &step, &[7u8])?;
    for _ in 0..4 {
        call(&mut seated, &map, &step, Operation::Dilate, 15)?;
    }
    let tried = [
        ('D', Operation::Dilate, 5),
        ('C', Operation::Close, 5),
        ('O', Operation::Open, 16),
        ('D', Operation::Dilate, 4),
    ];
    for (letter, operation, size) in tried {
        let answer = call(&mut seated, &map, &step, operation, size);
        print_answer(rt, letter, size, answer)?;
    }
    Ok(())
}
