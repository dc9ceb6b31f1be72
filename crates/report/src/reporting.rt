// A rig's report.
ghost use Rattle.std.specs.Prelude.{◌≡◌, ◌<◌, ◌≤◌, length, Ok};
ghost use Rattle.model.specs.Rigs.{section_answer, figures_answer, cell_answer};
ghost use Rattle.rig.specs.Worlds.{world, rig_of};
ghost use Rattle.report.specs.Reports.{agent_told, cell_told, agent_lines, cell_lines, report_text, Whole, copy_answer, copy_after};
ghost use Rattle.report.specs.Sheets.{Puts};

use crate::sheet::Sheet;
use cells::CellStore;
use refusal::Refusal;
use rig::Rig;
use rules::Rule;

// What the rig answers of agent k.
fn write_agent<S: CellStore, R: Rule>(rig: &Rig<S, R>, k: usize, sheet: &mut Sheet)
    ensures after { Puts sheet.old (agent_told k (section_answer (rig_of rig.now) k) (figures_answer (rig_of rig.now) k)) sheet.new }
{
    let Ok(section) = rig.section(k) else {
        return;
    };
    let Ok(figures) = rig.figures(k) else {
        return;
    };
    sheet.agent_line(k, section, figures);
}

// What the rig answers of all its agents.
fn write_agents<S: CellStore, R: Rule>(rig: &Rig<S, R>, sheet: &mut Sheet)
    ensures after { Puts sheet.old (agent_lines (rig_of rig.now) (length (rig_of rig.now).seats)) sheet.new }
{
    for k in 1..=rig.agents() {
        write_agent(rig, k, sheet);
    }
}

// What the rig answers of the cell of that name.
fn write_cell<S: CellStore, R: Rule>(rig: &Rig<S, R>, name: usize, sheet: &mut Sheet)
    ensures after { Puts sheet.old (cell_told name (cell_answer (world S.marks rig.now) name)) sheet.new }
    ensures short { name < 100 → length (cell_told name (cell_answer (world S.marks rig.now) name)) ≤ 20 }
{
    if let Ok(mark) = rig.cell(name) {
        sheet.cell_line(name, mark);
    }
}

// What the rig answers of all its cells.
fn write_cells<S: CellStore, R: Rule>(rig: &Rig<S, R>, sheet: &mut Sheet)
    ensures after { Puts sheet.old (cell_lines (world S.marks rig.now) (rig_of rig.now).cells) sheet.new }
    ensures short { length (cell_lines (world S.marks rig.now) (rig_of rig.now).cells) ≤ 1280 }
{
    for name in 1..=rig.cells() {
        write_cell(rig, name, sheet);
    }
}

// The whole report on a sheet.
fn sheet_of<S: CellStore, R: Rule>(rig: &Rig<S, R>) -> Sheet
    ensures value { result ≡ report_text R.NUMBER (world S.marks rig.now) }
    ensures fits { length (report_text R.NUMBER (world S.marks rig.now)) ≤ 2336 }
{
    let mut sheet = Sheet::new();
    sheet.sizes_line(rig.agents(), rig.cells(), R::NUMBER);
    write_agents(rig, &mut sheet);
    write_cells(rig, &mut sheet);
    sheet.last_line(rig.crowd(), rig.holder());
    sheet
}

// Writes the report into the buffer and answers how many bytes it has; a buffer of MAX_REPORT bytes is long enough for
// every rig.
pub fn report<S: CellStore, R: Rule>(rig: &Rig<S, R>, buffer: &mut [u8]) -> Result<usize, Refusal>
    ensures value { result ≡ copy_answer (report_text R.NUMBER (world S.marks rig.now)) buffer.old }
    ensures after { buffer.new ≡ copy_after (report_text R.NUMBER (world S.marks rig.now)) buffer.old }
    ensures enough { 2336 ≤ length buffer.old → result ≡ Ok (length (report_text R.NUMBER (world S.marks rig.now))) }
    ensures whole { Whole (world S.marks rig.now) }
    ensures fits { length (report_text R.NUMBER (world S.marks rig.now)) ≤ 2336 }
{
    sheet_of(rig).copy_to(buffer)
}
