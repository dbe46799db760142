// Values with their weights, by ascending value.
ghost use Rattle.std.specs.Prelude.{◌≡◌, ◌+◌, ◌≤◌, [], ◌∷◌, ◌++◌, OnOk, OnErr, int_lt};
ghost use Rattle.std.specs.Ordering.{int_eq};
ghost use Rattle.weights.specs.declared.TheConstants.{MAX};
ghost use Rattle.networks.specs.Lines.{IsAscending, IsAboveLast};
ghost use Rattle.networks.specs.Lines.{with_weight, add_line, line_sum, every, place_of};

use std::alloc::Global;
use std::marker::Model;
use weights::{Line, NoMemory};

/// Values, each with its summed weight, by strictly ascending value.
#[derive(Drop)]
pub struct Spread {
    lines: Vec<Line>,
}

impl Model for Spread {
    ghost use Rattle.std.specs.Prelude.{List};
    ghost use Rattle.weights.specs.declared.lines.Line.{Line};
    ghost use Rattle.networks.specs.Lines.{IsAscending};

    ghost Value = { List Line };

    ghost view = { λ spread. spread.lines.items };

    ghost invariant = { λ spread. IsAscending spread.lines.items };
}

// How many lines have lesser values.
fn place_of(lines: &[Line], value: i128) -> usize
    requires { IsAscending lines.now }
    ensures { result ≡ place_of value lines.now }
{
    lines.partition_point(
        |line: &Line| -> bool
            ensures { result ≡ int_lt line.now.value value }
        { line.value < value },
    )
}

fn has_value(line: &Line, value: i128) -> bool
    ensures { result ≡ int_eq line.now.value value }
{
    line.value == value
}

impl Spread {
    /// No lines. It takes no memory.
    pub fn empty(alloc: Global) -> Spread
        ensures { result ≡ [] }
    {
        Spread {
            lines: Vec::new(alloc),
        }
    }

    /// The lines.
    pub fn as_slice(&self) -> &[Line]
        ensures lines { result.now ≡ self.now }
        ensures ascending { IsAscending self.now }
    {
        self.lines.as_slice()
    }

    /// Adds a line at the end. A spread that is refused the memory stays as it was.
    pub fn push(&mut self, line: Line) -> Result<(), NoMemory>
        requires { IsAboveLast line.value self.old }
        ensures ok { OnOk result (self.new ≡ self.old ++ line ∷ []) }
        ensures err { OnErr result (self.new ≡ self.old) }
    {
        self.lines.push(line)?;
        Ok(())
    }

    // Adds a weight to that of a value.
    fn add_some(&mut self, value: i128, weight: u128) -> Result<(), NoMemory>
        requires { line_sum every self.old + weight ≤ MAX }
        ensures { OnOk result (self.new ≡ add_line value weight self.old) }
    {
        let place = place_of(&self.lines, value);
        if place < self.lines.len() && has_value(&self.lines[place], value) {
            self.lines[place].weight += weight;
            return Ok(());
        }
        self.lines.insert(place, Line { value, weight })?;
        Ok(())
    }

    /// Adds a weight to that of a value; a weight of 0 adds nothing.
    pub fn add(&mut self, value: i128, weight: u128) -> Result<(), NoMemory>
        requires { line_sum every self.old + weight ≤ MAX }
        ensures { OnOk result (self.new ≡ with_weight value weight self.old) }
    {
        if weight == 0 {
            return Ok(());
        }
        self.add_some(value, weight)
    }
}
