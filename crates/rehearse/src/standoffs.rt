// What a stand-off came to.
use cells::CellStore;
use rehearsals::are_together;
use rig::Rig;
use rules::Rule;

// The sections of the agents that move together.
fn tell_sections<S: CellStore, R: Rule>(
    rt: &impl Print,
    rig: &Rig<S, R>,
    together: usize,
) -> anyhow::Result<()> {
    for k in 1..=together {
        if let Ok(section) = rig.section(k) {
            println!(rt; "stand-off agent {k} {section}")?;
        }
    }
    Ok(())
}

// The marks of all cells.
fn tell_marks<S: CellStore, R: Rule>(rt: &impl Print, rig: &Rig<S, R>) -> anyhow::Result<()> {
    for name in 1..=rig.cells() {
        if let Ok(mark) = rig.cell(name) {
            println!(rt; "stand-off cell {name} {mark}")?;
        }
    }
    Ok(())
}

// Whether the agents that move together are in the same section, and nobody holds.
pub fn tell_standoff<S: CellStore, R: Rule>(
    rt: &impl Print,
    rig: &Rig<S, R>,
    together: usize,
) -> anyhow::Result<bool> {
    tell_sections(rt, rig, together)?;
    tell_marks(rt, rig)?;
    let same = are_together(rig, together);
    let sections = if same {
        "all in the same section"
    } else {
        "not all in the same section"
    };
    println!(rt; "stand-off {together} move together, {sections}")?;
    let crowd = rig.crowd();
    let holder = rig.holder();
    let held = if holder.is_none() {
        "nobody holds"
    } else {
        "somebody holds"
    };
    // The line says 0 for nobody.
    let number = holder.unwrap_or(0);
    println!(rt; "stand-off crowd {crowd} holder {number}, {held}")?;
    Ok(same && holder.is_none())
}
