// Prints the listing of the puzzle text on standard input.
#![tactic(auto)]

use listing::judges::Judge;
use listing::judges::judging::MAX_TEXT;
use std::io;
use std::io::Read;

fn main(rt: HostRuntime) -> io::Result<()> {
    let mut text = Vec::new(rt.alloc());
    rt.stdin().take(MAX_TEXT as u64 + 1).read_to_end(&mut text)?;
    let mut judge = Judge::new(rt.alloc())?;
    judge.judge(text.as_slice());
    print!(rt; "{judge}")
}
