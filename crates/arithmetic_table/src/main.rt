// Runs a table of operations at the edges of their operands, and says where the library answers otherwise.
#![tactic(auto)]

mod name;
mod row;

use row::Row;

// Prints a line for each row that the library answers otherwise, and at the end how many rows there were.
fn run(rt: &HostRuntime) -> anyhow::Result<()> {
    let mut rows = 0u64;
    let mut mismatches = 0u64;
    // A loop, since a line may fail to be read and a mismatch is printed; both counts are wanted at its end.
    for line in rt.lines(rt.alloc()) {
        let line = line?;
        rows = rows.saturating_add(1);
        if !Row::parse(line.as_str()).is_some_and(|row| row.agrees()) {
            mismatches = mismatches.saturating_add(1);
            println!(rt; "otherwise: {line}")?;
        }
    }
    println!(rt; "{rows} rows, {mismatches} mismatches")?;
    Ok(())
}

fn main(rt: HostRuntime) -> anyhow::Result<()> {
    run(&rt)
}
