// The lines of a report, each put after what is written on a sheet.
ghost use Rattle.std.specs.Prelude.{◌≡◌, ◌<◌, ◌≤◌, ◌++◌, length};
ghost use Rattle.refusal.specs.Refusals.{layer_word, refusal_line};
ghost use Rattle.cells.specs.Marks.{mark_words};
ghost use Rattle.report.specs.Lines.{line_end, sizes_line, agent_line, cell_line, last_line};
ghost use Rattle.report.specs.Sheets.{Puts};

use crate::sheet::Sheet;
use cells::Mark;
use itoa::Integer;
use model::Figures;
use refusal::{Layer, Refusal};
use rules::Section;

// Piece by piece and not by `write!`: what `write!` writes is promised only where it answers Ok, and nothing promises that
// it does.
impl Sheet {
    // A label and the number behind it.
    fn labelled<I: Integer>(&mut self, label: &str, number: I)
        ensures after { Puts self.old (label.now ++ I.text number) self.new }
    {
        self.text(label);
        self.number(number);
    }

    // The numbers of agents and cells, and the rule's number.
    pub(crate) fn sizes_line(&mut self, agents: usize, cells: usize, rule: u8)
        ensures after { Puts self.old (sizes_line agents cells rule) self.new }
    {
        self.labelled("agents ", agents);
        self.labelled(" cells ", cells);
        self.labelled(" rule ", rule);
        self.text("\n");
    }

    // What an agent does, and what is counted of it.
    pub(crate) fn agent_line(&mut self, agent: usize, section: Section, figures: Figures)
        ensures after { Puts self.old (agent_line agent section figures) self.new }
    {
        self.labelled("agent ", agent);
        self.text(" ");
        self.text(section.word());
        self.labelled(" steps ", figures.steps);
        self.labelled(" entries ", figures.entries);
        self.labelled(" refused ", figures.refused);
        self.text("\n");
    }

    // What a mark says of its cell.
    fn mark(&mut self, mark: Mark)
        ensures after { Puts self.old (mark_words mark) self.new }
        ensures short { length (mark_words mark) ≤ 11 }
    {
        match mark {
            Mark::Empty => self.text("empty"),
            Mark::Owner(identity) => self.labelled("owner ", identity),
            Mark::Rung(rung) => self.labelled("rung ", rung),
        }
    }

    // What stands in a cell.
    pub(crate) fn cell_line(&mut self, name: usize, mark: Mark)
        ensures after { Puts self.old (cell_line name mark) self.new }
        ensures short { name < 100 → length (cell_line name mark) ≤ 20 }
    {
        self.labelled("cell ", name);
        self.text(" ");
        self.mark(mark);
        self.text("\n");
    }

    // The crowd, and the agent that holds; the line says 0 for nobody.
    pub(crate) fn last_line(&mut self, crowd: u8, holder: Option<usize>)
        ensures after { Puts self.old (last_line crowd holder) self.new }
    {
        self.labelled("crowd ", crowd);
        self.labelled(" holder ", holder.unwrap_or(0));
        self.text("\n");
    }

    // Where a refusal comes from.
    fn layer(&mut self, layer: Layer)
        ensures after { Puts self.old (layer_word layer) self.new }
    {
        match layer {
            Layer::File => self.text("file"),
            Layer::Plan => self.text("plan"),
            Layer::Store => self.text("store"),
            Layer::Rig => self.text("rig"),
            Layer::Report => self.text("report"),
        }
    }

    // The number, the layer and both places of a refusal.
    pub(crate) fn refusal_line(&mut self, refusal: Refusal)
        ensures after { Puts self.old (refusal_line refusal ++ line_end) self.new }
        ensures short { length (refusal_line refusal ++ line_end) ≤ 67 }
    {
        let (first, second) = refusal.places();
        self.labelled("refused ", refusal.number());
        self.text(" ");
        self.layer(refusal.layer());
        self.labelled(" place ", first);
        self.labelled(" ", second);
        self.text("\n");
    }
}
