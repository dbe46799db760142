// Choices listed row by row, each with what it leaves.
ghost use Rattle.std.specs.Prelude.{◌≡◌, ◌+◌, ◌-◌, ◌*◌, ◌^◌, ◌<◌, ◌≤◌, ◌++◌, [], ◌∷◌, OnOk, length, max};
ghost use Rattle.std.specs.Prelude.{nat_eq, pos, if◌then◌else◌};
ghost use Rattle.std.specs.List.{sum};
ghost use Rattle.weights.specs.Numbers.{binomial};
ghost use Rattle.weights.specs.declared.TheConstants.{MAX};
ghost use Rattle.sorted_tables.specs.FrontSteps.{IsNext, IsFront, alike_with, last_alike, front_lines, with_row};
ghost use Rattle.sorted_tables.specs.SortedSteps.{row_orders, run_from};

use crate::gathering::{count_on, floor_of, goes_on};
use label_network::Binomials;
use std::alloc::Global;
use weights::{Line, NoMemory};

// The front of a choice, which is given up to a row.
#[derive(Clone, Copy)]
pub(crate) struct Front {
    // the last row so far, and how many of the column it gets
    pub size: u64,
    pub count: u64,
    // how many rows up to it are of its size and get as many
    pub alike: u64,
    // in how many orders rows so far may stand that are alike
    pub orders: u64,
    // how many of the column are left, and how many of the others
    pub column: u64,
    pub others: u64,
    // in how many ways both were labelled so far
    pub ways: u128,
}

// How many rows from the first one on have its size.
fn run_of(rows: &[u64]) -> u64
    requires some { 1 ≤ length rows.now }
    requires few { length rows.now ≤ 8 }
    ensures run { result ≡ run_from rows.now }
    ensures some { 1 ≤ result }
    ensures few { result ≤ 8 }
{
    let mut last = 0;
    while goes_on(rows, last) {
        last += 1;
    }
    last as u64 + 1
}

// In how many orders rows of equal size may stand.
pub(crate) fn orders_of(rows: &[u64]) -> u64
    requires few { length rows.now ≤ 8 }
    ensures orders { result ≡ row_orders rows.now }
    ensures few { result ≤ 8 ^ length rows.now }
{
    if rows.is_empty() {
        1
    } else {
        run_of(rows) * orders_of(&rows[1..])
    }
}

// How many rows are alike up to one that gets so many.
#[inline(always)]
fn alike_with(front: Front, size: u64, count: u64) -> u64
    requires { front.alike ≤ 8 }
    ensures { result ≡ alike_with front.size front.count front.alike size count }
{
    count_on(size == front.size && count == front.count, front.alike)
}

// A front with one more row.
#[inline(always)]
fn with_row(binomials: &Binomials, front: Front, size: u64, count: u64) -> Front
    requires { IsNext binomials.now.width front size count }
    ensures { result ≡ with_row front size count }
{
    let rest = size - count;
    let alike = alike_with(front, size, count);
    let here = binomials.ways(front.column, count);
    let there = binomials.ways(front.others, rest);
    Front {
        size,
        count,
        alike,
        orders: front.orders * alike,
        column: front.column - count,
        others: front.others - rest,
        ways: front.ways * (here * there),
    }
}

// How many rows are alike up to the last one, which gets all that is left.
#[inline(always)]
fn last_alike(front: Front, rows: &[u64]) -> u64
    requires { front.alike ≤ 8 }
    ensures { result ≡ last_alike front rows.now }
{
    if rows.is_empty() {
        1
    } else {
        alike_with(front, rows[0], front.column)
    }
}

// A weight as the value of a line.
#[inline(always)]
fn value_of(weight: u128) -> i128
    requires { weight ≤ MAX }
    ensures { result ≡ pos weight }
{
    weight as i128
}

// The line of a front with the one choice for its last row, or for none.
#[inline(always)]
fn last_line(binomials: &Binomials, orders: u64, rows: &[u64], front: Front) -> Line
    requires front { IsFront binomials.now.width orders rows.now front }
    requires last { length rows.now ≤ 1 }
    ensures { front_lines orders front rows.now ≡ result ∷ [] }
{
    let alike = last_alike(front, rows);
    Line {
        value: value_of(front.ways),
        weight: front.ways * (orders / (front.orders * alike)) as u128,
    }
}

// What the next row gets at least: what those behind it cannot take, and no less than the row
// before where that is of its size.
#[inline(always)]
fn least_of(front: Front, size: u64) -> u64
    requires within { size ≤ front.column + front.others }
    requires small { front.column + front.others < 2 ^ 64 }
    ensures { let later = front.column + front.others - size in
        result
        ≡ max (if nat_eq size front.size then front.count else 0) (front.column - later) }
{
    let later = front.column + front.others - size;
    floor_of(size, front.size, front.count).max(front.column.saturating_sub(later))
}

// Lists the choices that begin with a front.
#[cycle(listing)]
#[inline(always)]
pub(crate) fn list_behind(
    binomials: &Binomials,
    orders: u64,
    rows: &[u64],
    front: Front,
    lines: &mut Vec<Line>,
) -> Result<(), NoMemory>
    requires { IsFront binomials.now.width orders rows.now front }
    ensures { OnOk result (lines.new.items ≡ lines.old.items ++ front_lines orders front rows.now) }
{
    if rows.len() <= 1 {
        lines.push(last_line(binomials, orders, rows, front))?;
        Ok(())
    } else {
        list_next(binomials, orders, rows, front, lines)
    }
}

// Those with each count of the next row in turn, where it is not the last one.
#[cycle(listing)]
fn list_next(
    binomials: &Binomials,
    orders: u64,
    rows: &[u64],
    front: Front,
    lines: &mut Vec<Line>,
) -> Result<(), NoMemory>
    requires front { IsFront binomials.now.width orders rows.now front }
    requires more { 1 < length rows.now }
    ensures { OnOk result (lines.new.items ≡ lines.old.items ++ front_lines orders front rows.now) }
{
    let size = rows[0];
    let most = size.min(front.column / run_of(rows));
    let mut count = least_of(front, size);
    loop {
        let next = with_row(binomials, front, size, count);
        list_behind(binomials, orders, &rows[1..], next, lines)?;
        if count >= most {
            return Ok(());
        }
        count += 1;
    }
}
