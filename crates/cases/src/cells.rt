// The lent cells before a run, and one number for all of them after it. Sums wrap at 2^32.
ghost use Rattle.std.specs.Prelude.{◌≡◌, length};
ghost use Rattle.meaning.specs.Basics.{tab};
ghost use Rattle.cases.specs.Cells.{cell_before, weight};

// Cell i holds i * 2654435761 + 12345.
pub fn fill(list: &mut [u32])
    ensures { list.new ≡ tab (length list.old) cell_before }
{
    let mut next = 12345u32;
    for cell in list.iter_mut() {
        *cell = next;
        next = next.wrapping_add(2654435761);
    }
}

// The sum of (i + 1) * cell i. From the last cell on, each is added to the sum once for itself and once for each cell before it.
pub fn weigh(list: &[u32]) -> u32
    ensures { result ≡ weight list.now }
{
    let (_, sum) = list.iter().rev().fold((0u32, 0u32), |(later, sum), cell| {
        let later = later.wrapping_add(*cell);
        (later, sum.wrapping_add(later))
    });
    sum
}
