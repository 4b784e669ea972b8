//! Loaders without GraphQL: a shop's customers, their friends and their orders behind three loaders, as behind DataLoaders.
//!
//! The command shows loads one by one, rounds by hand, and an [`Execute`](execution::Execute) of its own, the total of the orders
//! of a customer's friends. It reads no input, and after each step writes what stands on record beside what the sources counted.
#![tactic(auto)]

mod answers;
mod by_hand;
mod loads;
mod look_up;
mod report;
mod rounds;
mod shop;
mod totals;

fn main(rt: HostRuntime) -> anyhow::Result<()> {
    let alloc = rt.alloc();
    println!(rt; "Loads of one session")?;
    loads::show(&rt, alloc)?;
    println!(rt; "Answers")?;
    answers::show(&rt, alloc)?;
    println!(rt; "Rounds by hand")?;
    rounds::show(&rt, alloc)
}
