// Where branches and SOB lead.
ghost use Rattle.std.specs.Prelude.{◌≡◌};
ghost use Rattle.listing.specs.Text.{branch_target, loop_target};

// The branch at `address` counts its offset in words from the word behind it.
pub(crate) fn branch_target(address: u16, offset: i8) -> u16
    ensures { result ≡ branch_target address offset }
{
    address
        .wrapping_add(2)
        .wrapping_add_signed(2 * i16::from(offset))
}

// SOB at `address` goes back by `count` words from the word behind it. No twin of the branch's: its count has no sign.
pub(crate) fn loop_target(address: u16, count: u8) -> u16
    ensures { result ≡ loop_target address count }
{
    address.wrapping_add(2).wrapping_sub(2 * u16::from(count))
}
