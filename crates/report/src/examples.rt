// Reports that are worked out, each by its whole text.
ghost use Rattle.std.specs.Prelude.{◌≡◌, List};
ghost use Rattle.cells.specs.declared.mark.Mark.{Mark};
ghost use Rattle.rule_read_write.specs.declared.phase.ReadWritePhase.{ReadWritePhase};
ghost use Rattle.model.specs.Examples.{ran, two_requests};
ghost use Rattle.model.specs.Loads.{blank_world};
ghost use Rattle.model.specs.Meanings.{read_and_write};
ghost use Rattle.report.specs.Reports.{report_text};

// Two agents, 700 and 41, asked together over three empty cells by rule 1, and the second came to hold.
pub fn report_after_two_requests() -> &'static [u8]
    ensures value { result.now ≡ report_text 1 (ran read_and_write two_requests) }
{
    b"agents 2 cells 3 rule 1
agent 1 asking steps 10 entries 0 refused 1
agent 2 holding steps 8 entries 1 refused 0
cell 1 owner 41
cell 2 owner 41
cell 3 owner 41
crowd 2 holder 2
"
}

// A blank rig of rule 1, over any cells.
pub fn report_of_blank() -> &'static [u8]
    ensures value { (ms : List Mark) → result.now ≡ report_text 1 (blank_world ReadWritePhase ms) }
{
    b"agents 0 cells 0 rule 1
crowd 0 holder 0
"
}
