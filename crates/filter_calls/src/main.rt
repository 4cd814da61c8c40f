// Reads a job from standard input, and prints what it did.
#![tactic(auto)]

use std::io;
use std::io::Read;

fn main(rt: HostRuntime) -> io::Result<()> {
    let heap = rt.alloc();
    let mut bytes = Vec::new(heap);
    rt.stdin().read_to_end(&mut bytes)?;
    let text = job_calls::report(heap, bytes.as_slice())?;
    print!(rt; "{text}")
}
