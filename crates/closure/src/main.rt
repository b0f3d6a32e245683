// Prints, for each definition in chronicles.txt, every bound that follows from those written, or what is wrong with it and where.
#![tactic(auto)]

use anyhow::anyhow;
use definitions::loaded::Loaded;
use definitions::reader::{Definition, read};
use files::{Unread, read_input};
use kinds::bound::Bound;
use kinds::ticks::Ticks;
use network::table::bound_between;
use std::io;

const PATH: &str = "chronicles.txt";

fn print_variables(rt: &HostRuntime, definition: &Definition) -> io::Result<()> {
    // By number: it is printed, and type names are read by it.
    for i in 0..definition.types.len() {
        if let Some(name) = definition.types.get(i) {
            println!(rt; "VAR\t{}\t{name}", i + 1)?;
        }
    }
    Ok(())
}

fn print_row(rt: &HostRuntime, table: &[Bound<Ticks>], i: usize, width: usize) -> io::Result<()> {
    // The numbers are what is printed, here and over the rows.
    for j in (0..width).filter(|j| *j != i) {
        if let Some(Bound::At(most)) = bound_between(table, i, j) {
            // Three numbers, written out: a closed bound has no type of its own.
            let from = i.saturating_add(1);
            let to = j.saturating_add(1);
            let c = most.count;
            println!(rt; "CLOSED\t{from}\t{to}\t{c}")?;
        }
    }
    Ok(())
}

fn print_definition(
    rt: &HostRuntime,
    definition: &Definition,
    table: &[Bound<Ticks>],
) -> io::Result<()> {
    let slot = definition.slot;
    let width = definition.types.len();
    println!(rt; "CHRONICLE\t{slot}\t{width}")?;
    print_variables(rt, definition)?;
    // By number, as in a row.
    for i in 0..width {
        print_row(rt, table, i, width)?;
    }
    Ok(())
}

// The definitions one after another, each into a slot of its own, up to one that is refused.
fn close_all(rt: &HostRuntime, text: &[u8]) -> anyhow::Result<()> {
    let mut loaded = Loaded([false; 8]);
    let mut table = [Bound::NoBound; 64];
    let mut rest = text;
    let mut count = 0usize;
    while !rest.is_empty() {
        match read::<Ticks>(rest, &loaded, &mut table) {
            Ok(definition) => {
                print_definition(rt, &definition, &table)?;
                loaded.load(definition.slot);
                rest = &rest[definition.used..];
                count = count.saturating_add(1);
            }
            Err(fault) => {
                println!(rt; "ERR\t{fault}")?;
                return Err(anyhow!("a definition is refused"));
            }
        }
    }
    println!(rt; "END\t{count}")?;
    Ok(())
}

fn main(rt: HostRuntime) -> anyhow::Result<()> {
    match read_input(&rt, PATH) {
        Ok(text) => close_all(&rt, text.as_slice()),
        Err(unread) => {
            match unread {
                Unread::Failed(error) => eprintln!(rt; "closure: cannot read {PATH}: {error}")?,
                Unread::Long(refusal) => println!(rt; "ERR\t{}", u8::from(refusal))?,
            }
            Err(unread.into())
        }
    }
}
