//! Totals in rounds by hand.

use crate::answers::{total_of, write_total};
use crate::by_hand::{Elsewhere, answer_by_hand};
use crate::report::record;
use crate::shop::{Calls, CountedTable, session};
use anyhow::{Result, ensure};
use load_rounds::Session;
use std::alloc::Global;

// Writes the total of Ada, what each of its rounds asks, and what stands on record after it.
fn write_rounds(
    rt: &impl Print,
    alloc: Global,
    session: &mut Session<CountedTable<'_>>,
    calls: &Calls,
    elsewhere: Elsewhere,
) -> Result<()> {
    ensure!(session.loaders().len() >= 2, "too few loaders");
    let total = total_of(alloc, "ada")?;
    let mut notes = String::new(alloc);
    let answer = answer_by_hand(alloc, &total, session, elsewhere, &mut notes)?;
    let record = record(alloc, session, calls)?;
    print!(rt;
        "{notes}  total of ada: {}, rounds {}, loads {}\n{record}",
        answer.text, answer.rounds, answer.loads
    )?;
    Ok(())
}

/// Shows rounds by hand in which an order is answered from elsewhere; a session then asks what failed once more.
pub fn show(rt: &impl Print, alloc: Global) -> Result<()> {
    let calls = Calls::new();
    let mut shop = session(alloc, &calls, Some(2))?;
    write_rounds(rt, alloc, &mut shop, &calls, Elsewhere::OneOrder(100))?;
    shop.restart()?;
    write_rounds(rt, alloc, &mut shop, &calls, Elsewhere::OutOfReach)?;
    write_total(rt, alloc, &mut shop, &calls, "ada")
}
