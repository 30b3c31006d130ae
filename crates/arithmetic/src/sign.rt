// Signed bytes as words: the sign of a byte spread over a word, and how far a branch goes.
ghost use Rattle.std.specs.Prelude.{◌≡◌};
ghost use Rattle.arithmetic.specs.Widths.{spread, branch_distance};

// The sign of the low byte spread over a word: what MOVB and MFPS leave in a register.
#[tactic(auto, unfolding(crate::specs::Widths::spread))]
pub fn sign_spread(byte: u16) -> u16
    ensures { result ≡ spread byte }
{
    let [low, _] = byte.to_le_bytes();
    i16::from(low.cast_signed()).cast_unsigned()
}

// What a taken branch adds to PC, which wraps: twice its offset.
#[tactic(auto, unfolding(crate::specs::Widths::branch_distance))]
pub fn branch_distance(offset: i8) -> u16
    ensures { result ≡ branch_distance offset }
{
    (2 * i16::from(offset)).cast_unsigned()
}
