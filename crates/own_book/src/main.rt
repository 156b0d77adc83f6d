// An example of a book of one's own: the review takes it like any other, since it asks the interface alone. An act is
// done before its fact holds, which is a breach, and once more while it holds, which is none.
#![tactic(auto)]

mod permission;

use books::Book;
use marks::Instance;
use permission::Permission;
use review::{Accepted, Review};
use std::io;

// Prints step and mark of each finding of the standing steps.
fn print_findings<B: Book>(rt: &HostRuntime, review: &Review<B>) -> io::Result<()> {
    for (step, mark) in (0..).map_while(|k| review.list(k).ok()) {
        println!(rt; "step {step}: mark {mark} is a finding")?;
    }
    Ok(())
}

// Proposes a step, and prints whether it passes.
fn print_step<B: Book>(
    rt: &HostRuntime,
    review: &mut Review<B>,
    said: &[u16],
    proposed: &[u16],
) -> io::Result<()> {
    match review.propose(said, proposed) {
        Ok(Accepted { step, .. }) => println!(rt; "step {step} passes"),
        Err(_) => println!(rt; "a step is refused"),
    }
}

// The record is instance 0, and reading it is instance 1.
fn review_reading(rt: &HostRuntime, record: Instance, read: Instance) -> io::Result<()> {
    let mut review = Review::new(Permission::new(read, record));
    // the record is created and read in one step: it does not hold yet
    print_step(rt, &mut review, &[4, 11], &[4, 11, 15])?;
    // it is read again, now that it holds
    print_step(rt, &mut review, &[11], &[0, 1, 10, 11])?;
    print_findings(rt, &review)
}

fn main(rt: HostRuntime) -> io::Result<()> {
    let record = Instance::new(0).unwrap();
    let read = Instance::new(1).unwrap();
    review_reading(&rt, record, read)
}
