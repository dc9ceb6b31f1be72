// The whole judgement of a plan file.
ghost use Rattle.std.specs.Prelude.{◌≡◌, true, ◌↔◌, is_ok, IfOk, Err};
ghost use Rattle.plan.specs.Accepted.{Acceptable, Fault, Faithful};
ghost use Rattle.plan.specs.Plans.{model};
ghost use Rattle.plan.specs.Checks.{answered, decoded};

use crate::draft::Draft;
use crate::header::Header;
use crate::plan::Plan;
use refusal::Refusal;

impl<'a> Plan<'a> {
    // The plan in a file for the expected rule, or the first refusal.
    pub fn decode(file: &'a [u8], rule: u8) -> Result<Plan<'a>, Refusal>
        ensures value { answered result ≡ decoded rule file.now }
        ensures accepted { (is_ok result ≡ true) ↔ Acceptable rule file.now }
        ensures refused { (e : Refusal) → (result ≡ Err e) ↔ Fault rule file.now e }
        ensures faithful { IfOk result (λ p. Faithful file.now (model p)) }
    {
        let header = Header::read(file)?;
        let draft = Draft { header, file };
        draft.check_all(rule)?;
        Ok(Plan { draft })
    }
}
