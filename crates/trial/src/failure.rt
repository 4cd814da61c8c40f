// What can end the trials before the last one.
use bench::BenchFault;
use criteria::MapFault;
use std::alloc::AllocError;
use std::io;
use thiserror::Error;

#[derive(Debug, Drop, Error)]
pub enum Failure {
    #[error("output: {0}")]
    Output(#[from] io::Error),
    #[error("memory: {0}")]
    Memory(#[from] AllocError),
    #[error("a fault of the map layer: {0:?}")]
    Map(#[from] MapFault),
    #[error("a fault of the bench layer: {0:?}")]
    Bench(#[from] BenchFault),
}
