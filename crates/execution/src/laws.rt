// What users of single instructions can rely on, as a law that the check proves.
ghost use Rattle.execution.specs.Laws.{RegisterWords};

// An instruction that works on registers alone changes no memory and asks nothing of the cabinet side.
#[tactic(auto, using(crate::proofs::Inside::inside_executes))]
pub fn register_words_stay_inside()
    ensures { RegisterWords }
{}
