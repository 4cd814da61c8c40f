// Reads a job from standard input, and prints what its calls took from the tile: the residue of the tile as taken over the
// tile as filtered, and how many pixels differ.
#![tactic(auto)]

use std::io;
use std::io::Read;

fn main(rt: HostRuntime) -> io::Result<()> {
    let heap = rt.alloc();
    let mut bytes = Vec::new(heap);
    rt.stdin().read_to_end(&mut bytes)?;
    let text = job_calls::measure(heap, bytes.as_slice())?;
    print!(rt; "{text}")
}
