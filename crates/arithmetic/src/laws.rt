// The laws that the operations keep.
ghost use Rattle.arithmetic.specs.Laws.{Undoing, Carrying, Exactness, Comparing, Keeping, Reading};

// Stands for the laws: what its contract states is proved of the definitions that the operations' contracts name.
#[tactic(auto, unfolding(crate::specs::Words::add_outcome, crate::specs::Words::subtract_outcome, crate::specs::Singles::single_outcome, crate::specs::Doubles::double_outcome))]
pub fn arithmetic_laws()
    ensures undoing { Undoing }
    ensures carrying { Carrying }
    ensures exactness { Exactness }
    ensures comparing { Comparing }
    ensures keeping { Keeping }
    ensures reading { Reading }
{}
