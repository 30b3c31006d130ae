// What users of a restart or a step can rely on, as laws that the check proves.
ghost use Rattle.processor.specs.Laws.{Determined, Loss, Few, LinesFirst, Idleness, Order};

use bus::Cabinet;

// The laws of a single job.
#[tactic(auto, using(crate::proofs::JobLaws::loss, crate::proofs::JobLaws::few, crate::proofs::JobLaws::lines_first, crate::proofs::JobLaws::idleness, crate::proofs::JobLaws::order))]
pub fn step_laws()
    ensures loss { Loss }
    ensures few { Few }
    ensures lines { LinesFirst }
    ensures idleness { Idleness }
    ensures order { Order }
{}

// Over sides of any two makes, a job ends in one way from the same start and the same exchanges.
pub fn ends_agree<C: Cabinet, D: Cabinet>()
    ensures { Determined C.Cabinet.meaning C.Cabinet.becomes D.Cabinet.meaning D.Cabinet.becomes }
{}
