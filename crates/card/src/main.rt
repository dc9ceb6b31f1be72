// Takes a card file image on standard input, makes cells of it, puts and swaps marks through two numberings, and prints
// what every step answered, the cells and the bytes. The same steps go over a mark table, and must end alike.

#![tactic(auto)]

mod steps;

use anyhow::anyhow;
use cells::CellStore;
use mark_table::MarkTable;
use record_file::RecordFile;
use renumbered::Renumbered;
use std::io::Read;
use steps::STEPS;

// More than 64 records, so that bytes behind the last one can be seen to stay.
const MOST: u64 = 512;

// Every step, with what it answered.
fn take_steps<S: CellStore>(rt: &impl Print, store: &mut S) -> anyhow::Result<()> {
    for step in STEPS {
        match step.take(store) {
            Ok(true) => println!(rt; "{step}: done")?,
            Ok(false) => println!(rt; "{step}: no")?,
            Err(refusal) => println!(rt; "{step}: {refusal}")?,
        }
    }
    Ok(())
}

fn show<S: CellStore>(rt: &impl Print, title: &str, store: &S) -> anyhow::Result<()> {
    for name in 1..=store.count() {
        let mark = store
            .read(name)
            .map_err(|refusal| anyhow!("{title}: {refusal}"))?;
        println!(rt; "{title} {name} {mark}")?;
    }
    Ok(())
}

// How many cells hold the same mark in both stores.
fn agreeing<S: CellStore, T: CellStore>(one: &S, other: &T) -> usize {
    (1..=one.count())
        .filter(|name| one.read(*name) == other.read(*name))
        .count()
}

// The names backwards: the first is the last below.
fn turned<S: CellStore + Drop>(store: S, row: &[usize]) -> anyhow::Result<Renumbered<S>> {
    Renumbered::with_row(store, row).map_err(|refusal| anyhow!("the names backwards: {refusal}"))
}

fn run(rt: &HostRuntime) -> anyhow::Result<()> {
    let mut image = Vec::new(rt.alloc());
    rt.stdin().take(MOST).read_to_end(&mut image)?;
    let file = RecordFile::new(image.as_mut_slice());
    let count = file.count();
    // Made once, before anything is printed.
    let row: Vec<usize> = (1..=count).rev().collect(rt.alloc())?;
    let mut cells = turned(file, row.as_slice())?;
    println!(rt; "{count} cells")?;
    take_steps(rt, &mut cells)?;
    show(rt, "cell", &cells)?;
    let mut table = turned(MarkTable::new(count), row.as_slice())?;
    take_steps(rt, &mut table)?;
    let same = agreeing(&cells, &table);
    println!(rt; "mark table agrees in {same}")?;
    show(rt, "record", &cells.into_store())?;
    println!(rt; "bytes {image:?}")?;
    Ok(())
}

fn main(rt: HostRuntime) -> anyhow::Result<()> {
    run(&rt)
}
