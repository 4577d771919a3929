//! One piece of a piecewise sequence.
ghost use Rattle.std.specs.Prelude.{◌≡◌, ◌<◌, true};
ghost use Rattle.vx_pieces.specs.Pieces.{first_from, is_sound_piece, piece_number, piece_numbers};

/// The numbers `start + j * multiplier` for each `j` below `length`.
#[derive(Clone, Copy)]
pub(crate) struct Piece {
    pub(crate) start: usize,
    pub(crate) length: usize,
    pub(crate) multiplier: usize,
}

impl Piece {
    /// Number `j`.
    pub(crate) fn number(self, j: usize) -> u128
        ensures { result ≡ piece_number self j }
    {
        self.start as u128 + j as u128 * self.multiplier as u128
    }

    /// Whether its last number, where it has any, is at most `usize::MAX`.
    pub(crate) fn is_sound(self) -> bool
        ensures { result ≡ is_sound_piece self }
    {
        self.length == 0 || self.number(self.length - 1) <= usize::MAX as u128
    }

    /// Number `j`, where the last number is at most `usize::MAX`.
    #[inline(always)]
    pub(crate) fn index(self, j: usize) -> usize
        requires sound { is_sound_piece self ≡ true }
        requires within { j < self.length }
        ensures { result ≡ piece_number self j }
    {
        self.start + j * self.multiplier
    }

    /// The first of its numbers that is at least `n`.
    pub(crate) fn first_at_least(self, n: usize) -> Option<usize>
        requires { is_sound_piece self ≡ true }
        ensures { result ≡ first_from n (piece_numbers self) }
    {
        if self.length == 0 {
            return None;
        }
        if self.start >= n {
            return Some(self.start);
        }
        if self.multiplier == 0 {
            return None;
        }
        let steps = (n - self.start - 1) / self.multiplier + 1;
        if steps < self.length {
            Some(self.start + steps * self.multiplier)
        } else {
            None
        }
    }
}
