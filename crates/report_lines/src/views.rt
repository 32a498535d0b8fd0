//! What shows the parts of a target: a bench, or the target itself.
ghost use Rattle.std.specs.Prelude.{◌≡◌, IfOk, IfSome};
ghost use Rattle.dap_base.specs.Causes.{HasCause};
ghost use Rattle.probe_core.specs.Bench.{seen_bench};
ghost use Rattle.target_machine.specs.Image.{image_part};
ghost use Rattle.report_lines.specs.Views.{IsViewedAsBefore, View, bench_view, target_view};

use dap_base::Failed;
use probe_core::Bench;
use target_machine::{ImageAsk, ImagePart, Target};

/// What shows the parts of a target, one at a time.
pub trait ShowsTarget {
    /// What is known of it.
    ghost known: { Self → View };

    /// Shows a part of the target. Nothing changes but, at `Failed`, the count of faults of the bench.
    fn part(&mut self, ask: ImageAsk) -> Result<ImagePart, Failed>
        ensures part { IfOk result (λ part. IfSome (known self.old).target (λ t. part ≡ image_part t ask)) }
        ensures same { IsViewedAsBefore (known self.old) (known self.new) }
        ensures cause { HasCause (known self.old).bench.reported.faults (known self.new).bench.reported.faults result };
}

impl<B: Bench> ShowsTarget for B {
    ghost known = { λ b. bench_view (seen_bench B.reported B.state b) (B.identity b) };

    #[tactic(auto, using(crate::proofs::ViewLemmas::shown_part, crate::proofs::ViewLemmas::viewed_bench))]
    fn part(&mut self, ask: ImageAsk) -> Result<ImagePart, Failed> {
        self.image(ask)
    }
}

/// A target that shows itself. It never fails.
#[derive(Drop)]
pub struct OwnTarget<'a> {
    pub target: &'a Target,
}

impl ShowsTarget for OwnTarget<'_> {
    ghost known = { λ s. target_view s.target.now };

    fn part(&mut self, ask: ImageAsk) -> Result<ImagePart, Failed> {
        Ok(self.target.view(ask))
    }
}
