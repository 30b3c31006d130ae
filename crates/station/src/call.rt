// What a station is asked, and what it answers.
ghost use Rattle.std.specs.Prelude.{◌≡◌};
ghost use Rattle.station.specs.Refusals.{numbered};
ghost use Rattle.station.specs.Stations.{pace};

use processor::Answer;

// A call: restart with PC and PSW (two numbers, and no thing of their own), one step, or a run of up to so many steps.
#[derive(Clone, Copy)]
pub enum Call {
    Restart(u16, u16),
    Step,
    Run(u16),
}

// Why a call is refused.
#[derive(Clone, Copy)]
pub enum Refusal {
    // A run of 0 or of more than 10,000 steps.
    StepCount,
    // The station has ended.
    HasEnded,
    // A step or a run where the processor does not run.
    NotRunning,
    // A rig with no place for eleven records.
    NoPlace,
    // The cabinet side is gone; so many records were made or used since opening.
    SideGone(usize),
}

impl Refusal {
    // The number by which operators know it. `SideGone` carries a count, so the numbers cannot be the variants' own.
    pub fn number(self) -> u8
        ensures { result ≡ (numbered self).0 }
    {
        match self {
            Refusal::StepCount => 10,
            Refusal::HasEnded => 11,
            Refusal::NotRunning => 12,
            Refusal::NoPlace => 13,
            Refusal::SideGone(_) => 14,
        }
    }
}

// How a run ended.
#[derive(Clone, Copy)]
pub enum End {
    AllSteps,
    Halted,
    Dead,
    NoPlace,
    SideGone(usize),
}

// How many steps of a run were answered, and how it ended.
#[derive(Clone, Copy)]
pub struct Run {
    pub steps: u16,
    pub end: End,
}

// What a call answers.
#[derive(Clone, Copy)]
pub enum Said {
    OfJob(Result<Answer, Refusal>),
    OfRun(Result<Run, Refusal>),
}

// Whether a run goes on after a step.
#[derive(Clone, Copy)]
pub enum Pace {
    On,
    Halted,
    Dead,
}

impl From<Answer> for Pace {
    ghost from_gives = { λ a p. p ≡ pace a };

    fn from(answer: Answer) -> Pace
        ensures { result ≡ pace answer }
    {
        match answer {
            Answer::Halted => Pace::Halted,
            Answer::Dead => Pace::Dead,
            Answer::WentOn | Answer::Entered | Answer::Waiting | Answer::Idle => Pace::On,
        }
    }
}
