// Boards, panel and tap at their edges.
#![tactic(auto)]

#[cfg(test)]
mod boards;
#[cfg(test)]
mod sides;
