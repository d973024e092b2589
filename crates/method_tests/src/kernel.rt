//! Tables of columns, and searches through columns: rows worked by hand, and answers at each gate.

ghost use Rattle.std.specs.Prelude.{◌-◌, ◌≤◌, ◌≤ℤ◌, pos};
ghost use Rattle.smp_frac.specs.Limits.{number_limit};
ghost use Rattle.smp_kernel.specs.Vectors.{Within};

use smp_kernel::*;
use std::test::Fail;

/// The greatest absolute value of an entry of a column.
const MOST: i64 = 2147483647;

/// 2^22, whose square is the gate.
const ROOT: i64 = 1 << 22;

/// The gate for entries of a table and of a circuit.
const GATE: i64 = 1 << 44;

/// These numbers, of which each past the limit of an entry is brought to it.
fn limited<const Q: usize>(numbers: &[i64; Q]) -> [i64; Q]
    ensures { Within (number_limit - 1) result }
{
    let mut limited = [0; Q];
    for place in 0..Q {
        limited[place] = numbers[place].max(-MOST).min(MOST);
    }
    limited
}

/// Whether a new table gives these answers to these columns, one after the other, and keeps so many of them.
fn answers<const Q: usize, const N: usize>(
    columns: [[i64; Q]; N],
    wanted: [Added<Q>; N],
    kept: usize,
) -> bool
    requires { Q ≤ 16 }
{
    let mut table = Table::<Q>::new();
    let mut right = true;
    for place in 0..N {
        let answer = table.add(&limited(&columns[place]));
        right &= answer == wanted[place];
    }
    right & (table.count() == kept)
}

fn circuit<const Q: usize>(w: [i64; Q], last: i64) -> Added<Q> {
    Added::Circuit { w, last }
}

#[test]
fn columns_added_to_a_table(rt: HostRuntime) -> Result<(), Fail> {
    use Added::Basis;

    let right = [
        answers([[], []], [circuit([], 1), circuit([], 1)], 0),
        answers(
            [[0], [2], [-3], [4]],
            [circuit([0], 1), Basis, circuit([3], 2), circuit([-2], 1)],
            1,
        ),
        answers(
            [[-2], [3], [-6], [0]],
            [Basis, circuit([3], 2), circuit([-3], 1), circuit([0], 1)],
            1,
        ),
        answers(
            [[1, 1], [1, 2], [1, 3]],
            [Basis, Basis, circuit([1, -2], 1)],
            2,
        ),
        answers(
            [[0, 0, 2], [0, 0, 3], [0, 4, 0], [0, 6, 3]],
            [
                Basis,
                circuit([-3, 0, 0], 2),
                Basis,
                circuit([-3, -3, 0], 2),
            ],
            2,
        ),
    ];
    assert_eq!(rt; right, [true; 5]);
    Ok(())
}

#[test]
fn columns_at_the_gates(rt: HostRuntime) -> Result<(), Fail> {
    use Added::{Basis, Wide};

    let right = [
        // Circuits with an entry at the gate, and one past it.
        answers(
            [
                [1, 0],
                [ROOT, 1],
                [0, ROOT],
                [-1, ROOT],
                [0, -ROOT],
                [1, -ROOT],
                [1, ROOT],
            ],
            [
                Basis,
                Basis,
                circuit([GATE, -ROOT], 1),
                Wide,
                circuit([-GATE, ROOT], 1),
                Wide,
                circuit([GATE - 1, -ROOT], 1),
            ],
            2,
        ),
        // The last entry at the gate, and past it.
        answers(
            [[ROOT, 0], [1, ROOT], [1, 1]],
            [Basis, Basis, circuit([1 - ROOT, -ROOT], GATE)],
            2,
        ),
        answers([[ROOT + 1, 0], [1, ROOT], [1, 1]], [Basis, Basis, Wide], 2),
        // A table with an entry at the gate, and then with a product of 2^65 and small rows.
        answers(
            [[1, ROOT, 0], [0, 1, ROOT], [ROOT / 2, 0, 0], [1, 1, 1]],
            [Basis, Basis, Basis, Wide],
            3,
        ),
        // One past it; the table stays as it was.
        answers(
            [
                [1, ROOT, -1],
                [0, 1, ROOT],
                [2, 2 * ROOT, -2],
                [0, 1, ROOT - 1],
            ],
            [Basis, Wide, circuit([-2, 0, 0], 1), Basis],
            2,
        ),
        answers([[1, MOST, 0], [1, 0, MOST - 1]], [Basis, Wide], 1),
    ];
    assert_eq!(rt; right, [true; 6]);
    Ok(())
}

/// The column of 16 numbers of which all but the first three are 0.
fn column(first: i32, second: i32, third: i32) -> [i32; 16]
    requires first { pos 0 ≤ℤ first }
    requires second { pos 0 ≤ℤ second }
    requires third { pos 0 ≤ℤ third }
    ensures { Within (number_limit - 1) result }
{
    let mut column = [0; 16];
    column[0] = first;
    column[1] = second;
    column[2] = third;
    column
}

fn found(first: i64, second: i64, third: i64, number: usize) -> Searched {
    let mut w = [0; 17];
    w[0] = first;
    w[1] = second;
    w[2] = third;
    Searched::Found(Factors { w, number })
}

#[test]
fn columns_searched(rt: HostRuntime) -> Result<(), Fail> {
    let close = [column(1, 1, 0), column(1, 2, 0), column(1, 3, 0)];
    let wide = [column(1, 2147483647, 0), column(1, 0, 2147483646)];
    let right = [
        search(&close, 0) == found(1, 0, 0, 1),
        search(&close, 1) == found(-1, 1, 0, 2),
        search(&close, 2) == found(1, -2, 1, 3),
        search(&close, 16) == found(1, -2, 1, 3),
        search(&close[..2], 2) == Searched::Independent,
        search(&[], 0) == Searched::Independent,
        search(&wide, 1) == found(-1, 1, 0, 2),
        search(&wide, 2) == Searched::Independent,
        search(&wide, 3) == Searched::TooWide,
    ];
    assert_eq!(rt; right, [true; 9]);
    Ok(())
}
