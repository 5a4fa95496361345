// Answers each line of standard input, an amount and its weights, with the shares under each rule, and ends with a summary.
#![tactic(auto)]

mod answer;
mod request;
mod tally;

use answer::answer_to;
use std::io;
use std::io::{BufRead, BufReader};
use tally::Tally;

const LINE_FEED: u8 = b'\n';

fn main(rt: HostRuntime) -> io::Result<()> {
    let heap = rt.alloc();
    let mut tally = Tally::default();
    for line in BufReader::new(heap, rt.stdin())?.split(heap, LINE_FEED) {
        let answer = answer_to(heap, &line?)?;
        tally.count(&answer);
        let number = tally.lines;
        match answer {
            Ok(shares) => println!(rt; "{number}: {shares}")?,
            Err(reason) => println!(rt; "{number}: {reason}")?,
        }
    }
    rt.println(tally)
}
