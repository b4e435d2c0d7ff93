// Runs the vectors of a table that is read from standard input, prints each case that fails, and counts.
#![tactic(auto)]

mod answers;
mod cases;
mod fault;
mod frames;
mod notation;
mod table;
mod tally;

use anyhow::{bail, ensure};
use cases::check_case;
use std::io;
use table::{Case, Group};
use tally::Tally;

fn main(rt: HostRuntime) -> anyhow::Result<()> {
    let table = io::read_to_string(rt.alloc(), rt.stdin())?;
    run(&rt, table.as_str())
}

// Every group of the table, and the sum over them.
fn run(rt: &HostRuntime, table: &str) -> anyhow::Result<()> {
    check_lines(rt, table)?;
    let mut total = Tally::new();
    for group in Group::ALL {
        let tally = run_group(rt, table, group)?;
        println!(rt; "{group} {tally}")?;
        total.add(&tally);
    }
    ensure!(total.all_passed(), "some vectors fail");
    let seen = total.seen();
    println!(rt; "all {seen} vectors pass")?;
    Ok(())
}

// Every line of the table must be a case.
fn check_lines(rt: &HostRuntime, table: &str) -> anyhow::Result<()> {
    for (place, line) in table.lines().enumerate() {
        if let Err(fault) = Case::try_from(line) {
            let number = place.saturating_add(1);
            println!(rt; "FAILED line {number} of the table: {fault}")?;
            bail!("the table has a line that is no case");
        }
    }
    Ok(())
}

// The cases of one group.
fn run_group(rt: &HostRuntime, table: &str, group: Group) -> anyhow::Result<Tally> {
    let mut tally = Tally::new();
    for line in table.lines() {
        if !group.may_have(line) {
            continue;
        }
        let Ok(case) = Case::try_from(line) else {
            continue;
        };
        if case.group == group {
            tally.note(run_case(rt, line, &case)?);
        }
    }
    Ok(tally)
}

// Whether a case passes; if not, what is wrong is printed.
fn run_case(rt: &HostRuntime, line: &str, case: &Case<'_>) -> anyhow::Result<bool> {
    match check_case(rt.alloc(), case) {
        Ok(None) => return Ok(true),
        Ok(Some(words)) => rt.println(words)?,
        Err(fault) => println!(rt; "FAILED {line}: {fault}")?,
    }
    Ok(false)
}
