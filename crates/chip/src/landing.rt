// How bytes land at their places: in a region that is lent they are laid, that is stored; on the chip they are written, that is ANDed.
ghost use Rattle.std.specs.Prelude.{◌≡◌, ◌+◌, ◌≤◌, ℕ, List, length};
ghost use Rattle.std.specs.Int.Bits.{bit_and};
ghost use Rattle.std.proofs.lemmas.List.Edits.{sets};
ghost use Rattle.chip.specs.Chip.{written};
ghost use Rattle.chip.specs.Landing.{Run, sets-run, written_run};

pub trait Landing {
    // What a new byte makes of the old one.
    ghost byte: { ℕ → ℕ → ℕ };

    // What bytes make of those that they land on, from a place on.
    ghost landed: { List ℕ → ℕ → List ℕ → List ℕ };

    // The latter is the former, byte by byte.
    ghost run: { Run byte landed };

    fn byte_of(old: u8, new: u8) -> u8
        ensures { result ≡ byte old new };
}

// Stored: a region buffer takes the bytes as they are.
pub struct Laid;

impl Landing for Laid {
    ghost byte = { λ old new. new };

    ghost landed = { sets };

    ghost run = { sets-run };

    fn byte_of(_old: u8, new: u8) -> u8 {
        new
    }
}

// The chip's write clears bits, and sets none.
pub struct Written;

impl Landing for Written {
    ghost byte = { bit_and };

    ghost landed = { written };

    ghost run = { written_run };

    fn byte_of(old: u8, new: u8) -> u8 {
        old & new
    }
}

// Bytes land from a place on. Of the elements behind a zip of `iter_mut` the checker knows nothing: so by the place of each.
pub fn land<L: Landing>(part: &mut [u8], at: usize, new: &[u8])
    requires { at + length new.now ≤ length part.old }
    ensures { part.new ≡ L.landed part.old at new.now }
{
    for (i, byte) in new.iter().enumerate() {
        part[at + i] = L::byte_of(part[at + i], *byte);
    }
}
