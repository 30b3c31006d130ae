// Small programs on the processor, with what the rules make of them.
#![tactic(auto)]

#[cfg(test)]
mod faults;
#[cfg(test)]
mod instructions;
#[cfg(test)]
mod interrupts;
#[cfg(test)]
mod machine;
mod side;
