//! Totals that sessions answer.

use crate::report::record;
use crate::shop::{Calls, CountedTable, session};
use crate::totals::FriendsTotal;
use anyhow::{Result, ensure};
use load_rounds::Session;
use std::alloc::Global;

/// The total of a customer.
pub fn total_of(alloc: Global, customer: &str) -> Result<FriendsTotal> {
    Ok(FriendsTotal {
        customer: String::from_str(alloc, customer)?,
    })
}

/// Writes the total of a customer, its rounds, and what stands on record after it.
pub fn write_total(
    rt: &impl Print,
    alloc: Global,
    session: &mut Session<CountedTable<'_>>,
    calls: &Calls,
    customer: &str,
) -> Result<()> {
    ensure!(session.loaders().len() >= 2, "too few loaders");
    let total = total_of(alloc, customer)?;
    let answer = session.answer(&total)?;
    let record = record(alloc, session, calls)?;
    print!(rt;
        "  total of {customer}: {}, rounds {}, loads {}\n{record}",
        answer.text, answer.rounds, answer.loads
    )?;
    Ok(())
}

// Writes the totals of two customers, in rounds that they share, and what stands on record after them.
fn write_both(
    rt: &impl Print,
    alloc: Global,
    session: &mut Session<CountedTable<'_>>,
    calls: &Calls,
) -> Result<()> {
    ensure!(session.loaders().len() >= 2, "too few loaders");
    let customers = ["ada", "bob"];
    let totals = vec![in alloc; total_of(alloc, "ada")?, total_of(alloc, "bob")?]?;
    for (customer, answer) in customers.iter().zip(session.answer_all(totals)?) {
        println!(rt;
            "  total of {customer}: {}, rounds {}, loads {}",
            answer.text, answer.rounds, answer.loads
        )?;
    }
    let record = record(alloc, session, calls)?;
    print!(rt; "{record}")?;
    Ok(())
}

/// Shows totals on one session; one on a session whose sources are asked for two keys at once; and two together.
pub fn show(rt: &impl Print, alloc: Global) -> Result<()> {
    let calls = Calls::new();
    let mut shop = session(alloc, &calls, None)?;
    for customer in ["ada", "ada", "bob", "cy", "dee", "fay", "hal"] {
        write_total(rt, alloc, &mut shop, &calls, customer)?;
    }
    println!(rt; "Answers in batches of two")?;
    let calls = Calls::new();
    let mut shop = session(alloc, &calls, Some(2))?;
    write_total(rt, alloc, &mut shop, &calls, "ada")?;
    println!(rt; "Two answers together")?;
    let calls = Calls::new();
    let mut shop = session(alloc, &calls, None)?;
    write_both(rt, alloc, &mut shop, &calls)
}
