//! Rows at numbers of any integer type.
ghost use Rattle.std.specs.Prelude.{◌≡◌, ◌+◌, ◌*◌, ◌<◌, ◌≤◌, length, map, true};
ghost use Rattle.std.specs.List.{list_all};
ghost use Rattle.vx_types.specs.PType.{is_int, number, width};
ghost use Rattle.vx_positions.specs.Positions.{is_position, position_of};
ghost use Rattle.vx_fixed.specs.Rows.{AreWritten};

use vx_positions::position;
use vx_runs::put_block;
use vx_types::PType;

// The position that a number names.
#[inline(always)]
fn place_of<const P: usize>(ptype: PType, bytes: &[u8; P], rows: usize) -> usize
    requires int { is_int ptype ≡ true }
    requires width { P ≡ width ptype }
    requires there { is_position rows (number ptype bytes.now) ≡ true }
    ensures place { result ≡ position_of (number ptype bytes.now) }
    ensures below { result < rows }
{
    position(ptype.number(bytes), rows)
}

/// Writes the rows of W bytes each at numbers of a type, each counted from row `from` on and one of
/// `rows` rows.
#[inline(always)]
pub fn write_at_numbers<const P: usize, const W: usize>(
    ptype: PType,
    records: &[[u8; P]],
    rows: usize,
    src: &[u8],
    from: usize,
    out: &mut [u8],
)
    requires int { is_int ptype ≡ true }
    requires width { P ≡ width ptype }
    requires below { list_all (λ r. is_position rows (number ptype r)) records.now ≡ true }
    requires wide { 0 < W }
    requires there { (from + rows) * W ≤ length src.now }
    requires room { length records.now * W ≤ length out.old }
    ensures { AreWritten W src.now from (map (λ r. position_of (number ptype r)) records.now)
        out.old out.new }
{
    for k in 0..records.len() {
        let place = place_of(ptype, &records[k], rows);
        put_block::<W>(out, k * W, src, (from + place) * W);
    }
}
