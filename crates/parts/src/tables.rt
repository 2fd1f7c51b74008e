// A table, as it is written for the parts of a script.
ghost use Rattle.std.specs.Prelude.{string_bytes};
ghost use Rattle.parts.specs.Scripts.{tables};

use crate::Playing;
use agreement::Ends;
use played::Played;
use refusal::Refusal;
use rehearsal::Table;
use rehearsal::lines::Part;
use std::alloc::AllocError;

impl Playing for Table {
    ghost way = { tables };

    ghost text = { λ t. string_bytes t.text };

    #[tactic(auto, unfolding(crate::specs::Scripts::begun_part))]
    fn begin<C: Played + Copy>(
        &mut self,
        ends: Ends<C>,
        part: &Part<'_>,
    ) -> Result<(), AllocError> {
        self.rehearse(ends, part)
    }

    #[tactic(auto, unfolding(crate::specs::Scripts::refused_part))]
    fn refuse(&mut self, refusal: &Refusal, part: &Part<'_>) -> Result<(), AllocError> {
        self.refused(refusal, part)
    }

    #[tactic(auto, unfolding(crate::specs::Scripts::idle_part))]
    fn idle(&mut self, part: &Part<'_>) -> Result<(), AllocError> {
        self.unmade(part)
    }
}
