// How many ways there are to label, by a table of binomials where there is room for one.
ghost use Rattle.std.specs.Prelude.{◌≡◌, ◌+◌, ◌-◌, ◌*◌, ◌^◌, ◌<◌, ◌≤◌, max, min, IfOk};
ghost use Rattle.std.specs.List.{sum};
ghost use Rattle.weights.specs.Numbers.{binomial};
ghost use Rattle.weights.specs.Labellings.{number_of_labellings};
ghost use Rattle.weights.specs.declared.TheConstants.{MAX};
ghost use Rattle.label_network.specs.LabelSteps.{IsHeld, AreBinomials, capped};

use std::alloc::Global;
use weights::{MAX, NoMemory, binomial, multinomial, total_of};

// How many entries a table has at most. Two rows whose total fits need fewer.
const TABLE_ROOM: usize = 1 << 17;

/// The numbers of labellings of subjects of some rows, and of any fewer: by a table of binomials,
/// of fewer than `width` out of fewer than `most`, row by row, and by division beyond it.
#[derive(Drop)]
pub struct Binomials {
    width: usize,
    most: usize,
    table: Vec<u128>,
    ghost right: { AreBinomials width (most * width) table.items },
}

fn capped_sum(a: u128, b: u128) -> u128
    requires a { a ≤ MAX }
    requires b { b ≤ MAX }
    ensures { result ≡ min (a + b) MAX }
{
    let sum = a + b;
    if sum > MAX { MAX } else { sum }
}

// The next entry, by the two above it.
fn next_entry(table: &[u128], width: usize, row: usize, place: usize) -> u128
    requires table { AreBinomials width (row * width + place) table.now }
    requires place { place < width }
    ensures { result ≡ capped (binomial row place) }
{
    if place == 0 {
        1
    } else if row == 0 {
        0
    } else {
        let above = table.len() - width;
        capped_sum(table[above - 1], table[above])
    }
}

// A width that is enough for a row or for what comes after it, too.
fn wider(width: u64, size: u64, later: u64) -> u64
    requires { size + later < 2 ^ 64 }
    ensures { result ≡ max width (min size later + 1) }
{
    let few = if size < later { size } else { later };
    if width < few + 1 { few + 1 } else { width }
}

// A width that is enough for each row or for what comes after it.
fn width_for(rows: &[u64]) -> usize
    requires { sum rows.now < 2 ^ 64 }
    ensures some { 1 ≤ result }
    ensures held { IsHeld result rows.now }
{
    let mut width: u64 = 1;
    let mut later: u64 = 0;
    let mut i = rows.len();
    while i > 0 {
        i -= 1;
        width = wider(width, rows[i], later);
        later += rows[i];
    }
    width as usize
}

// How many rows a table of this width is to have: those of up to `whole` subjects, or none.
fn rows_for(whole: u64, width: usize) -> usize
    ensures { result * width < 2 ^ 64 }
{
    if whole >= TABLE_ROOM as u64 {
        return 0;
    }
    let wanted = whole as usize + 1;
    match wanted.checked_mul(width) {
        Some(room) if room <= TABLE_ROOM => wanted,
        _ => 0,
    }
}

fn by_division(counts: &[u64]) -> u128
    requires small { sum counts.now < 2 ^ 64 }
    requires fits { number_of_labellings counts.now ≤ MAX }
    ensures { result ≡ number_of_labellings counts.now }
{
    match multinomial(counts) {
        Some(ways) => ways,
        None => 0,
    }
}

fn chosen_of(n: u64, k: u64) -> u128
    requires { binomial n k ≤ MAX }
    ensures { result ≡ binomial n k }
{
    match binomial(n, k) {
        Some(ways) => ways,
        None => 0,
    }
}

impl Binomials {
    fn new(alloc: Global, most: usize, width: usize) -> Result<Binomials, NoMemory>
        requires some { 1 ≤ width }
        requires small { most * width < 2 ^ 64 }
        ensures most { IfOk result (λ binomials. binomials.most ≡ most) }
        ensures width { IfOk result (λ binomials. binomials.width ≡ width) }
    {
        let mut table = Vec::new(alloc);
        for row in 0..most {
            for place in 0..width {
                let entry = next_entry(&table, width, row, place);
                table.push(entry)?;
            }
        }
        Ok(Binomials { width, most, table })
    }

    /// The ways to label subjects of these rows, and of any smaller ones.
    pub fn for_rows(alloc: Global, rows: &[u64]) -> Result<Binomials, NoMemory>
        requires { sum rows.now < 2 ^ 64 }
        ensures { IfOk result (λ binomials. IsHeld binomials.width rows.now) }
    {
        let width = width_for(rows);
        Binomials::new(alloc, rows_for(total_of(rows), width), width)
    }

    // In how many ways k of n can be chosen, where k or what is left is few.
    fn choose(&self, n: u64, k: u64) -> u128
        requires most { n < self.now.most }
        requires fewer { k ≤ n }
        requires held { self.now.width ≤ k → n - k < self.now.width }
        requires fits { binomial n k ≤ MAX }
        ensures { result ≡ binomial n k }
    {
        let few = if k < self.width as u64 { k } else { n - k };
        self.table[n as usize * self.width + few as usize]
    }

    /// In how many ways k of n can be chosen, where k or what is left is few.
    #[inline(always)]
    pub fn ways(&self, n: u64, k: u64) -> u128
        requires fewer { k ≤ n }
        requires held { self.now.width ≤ k → n - k < self.now.width }
        requires fits { binomial n k ≤ MAX }
        ensures { result ≡ binomial n k }
    {
        if n < self.most as u64 {
            self.choose(n, k)
        } else {
            chosen_of(n, k)
        }
    }

    fn by_table(&self, counts: &[u64], whole: u64) -> u128
        requires whole { whole ≡ sum counts.now }
        requires most { whole < self.now.most }
        requires held { IsHeld self.now.width counts.now }
        requires fits { number_of_labellings counts.now ≤ MAX }
        ensures { result ≡ number_of_labellings counts.now }
    {
        let mut left = whole;
        let mut product: u128 = 1;
        for count in counts {
            if *count != left {
                product *= self.choose(left, *count);
            }
            left -= *count;
        }
        product
    }

    /// How many labellings there are with these counts of each label, of `whole` subjects.
    pub fn labellings(&self, counts: &[u64], whole: u64) -> u128
        requires whole { whole ≡ sum counts.now }
        requires held { IsHeld self.now.width counts.now }
        requires fits { number_of_labellings counts.now ≤ MAX }
        ensures { result ≡ number_of_labellings counts.now }
    {
        if whole < self.most as u64 {
            self.by_table(counts, whole)
        } else {
            by_division(counts)
        }
    }
}
