// The agreement of replay and recording.
ghost use Rattle.station.specs.Agreement.{Agreement};

// Says that a replay agrees with its recording, whole: see the statement.
#[tactic(auto, using(crate::proofs::Agreeing::agreement))]
pub fn replay_agrees()
    ensures { Agreement }
{}
