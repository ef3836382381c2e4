// A search for a rational solution, or for multipliers that sum the rows to a contradiction, after
// the simplex method with Bland's least-index rule.
//
// Nothing is proved of what it finds: a solution is checked against every row, and multipliers are
// followed step by step.

use crate::tableau::{Line, Tableau, zeros};
use fst_base::OutOfMemory;
use fst_rows::{Row, gcd};
use std::alloc::Global;

/// More unknowns or rows than this are not put into a tableau.
const MOST: usize = 4096;

/// So many pivots take the slack that is most negative; those after them take the first one, which
/// comes to an end.
const GREEDY: u32 = 2000;

const TURNS: u32 = 20000;

/// What the search found.
#[derive(Debug, Drop)]
pub enum Found {
    /// The value of each unknown, over a common scale.
    Values(u128, Vec<i128>),
    /// One number for each row.
    Multipliers(Vec<i128>),
    Nothing,
}

/// How the pivots end: no slack is negative, or that of a line, which no column helps.
#[derive(Clone, Copy, Debug)]
enum Settled {
    Solved,
    Negative(usize),
    GaveUp,
}

/// How many numbers of unknowns the rows have; none where there are too many for a tableau.
fn unknowns(rows: &[&Row]) -> Option<usize> {
    let mut count = 0;
    for row in rows {
        if let Some(last) = row.coefs.as_slice().last() {
            count = count.max((last.unknown as usize).wrapping_add(1));
        }
    }
    if count <= MOST && rows.len() <= MOST {
        Some(count)
    } else {
        None
    }
}

impl Tableau {
    /// The line of a slack with the smallest number that isn't 0 in the column.
    fn line_with(&self, column: usize) -> Option<usize> {
        let mut found = None;
        let mut least = u128::MAX;
        for (at, line) in self.lines.iter().enumerate() {
            let size = line.cell(column).unsigned_abs();
            if size != 0 && size < least && self.is_slack(line.basic) {
                found = Some(at);
                least = size;
            }
        }
        found
    }

    /// The line of the slack with the least negative number, or of the first one with any.
    fn negative_line(&self, first: bool) -> Option<usize> {
        let mut found = None;
        let mut earliest = usize::MAX;
        let mut least = 0;
        for (at, line) in self.lines.iter().enumerate() {
            let number = line.cell(0);
            let is_better = if first {
                line.basic < earliest
            } else {
                number < least
            };
            if number < 0 && is_better && self.is_slack(line.basic) {
                found = Some(at);
                earliest = line.basic;
                least = number;
            }
        }
        found
    }

    /// The column of the first slack with a positive cell in the line.
    fn helping_column(&self, line: &Line) -> Option<usize> {
        let mut found = None;
        let mut earliest = self.slacks;
        for (column, (variable, cell)) in self.columns.iter().zip(line.cells.iter()).enumerate() {
            if *variable < earliest && *cell > 0 {
                found = Some(column);
                earliest = *variable;
            }
        }
        found
    }

    /// Makes every unknown basic that some line has.
    fn solve_unknowns(&mut self) -> Option<()> {
        for column in 1..self.columns.len() {
            if let Some(at) = self.line_with(column) {
                self.pivot(at, column)?;
            }
        }
        Some(())
    }

    /// Pivots until no slack is negative, or no column helps one that is.
    fn settle(&mut self) -> Settled {
        if self.solve_unknowns().is_none() {
            return Settled::GaveUp;
        }
        for turn in 0..TURNS {
            let Some(at) = self.negative_line(turn > GREEDY) else {
                return Settled::Solved;
            };
            let Some(line) = self.lines.get(at) else {
                return Settled::GaveUp;
            };
            let Some(column) = self.helping_column(line) else {
                return Settled::Negative(at);
            };
            if self.pivot(at, column).is_none() {
                return Settled::GaveUp;
            }
        }
        Settled::GaveUp
    }

    /// The least common multiple of the scales of the unknowns.
    fn common_scale(&self) -> Option<u128> {
        let mut scale = 1;
        for line in &self.lines {
            let own = line.scale.unsigned_abs();
            if !self.is_slack(line.basic) && own != 1 {
                scale = own.checked_div(gcd(scale, own))?.checked_mul(scale)?;
            }
        }
        Some(scale)
    }

    fn fill_values(&self, scale: u128, values: &mut Vec<i128>) -> Option<()> {
        for line in &self.lines {
            if !self.is_slack(line.basic) {
                let times = i128::try_from(scale).ok()?.checked_div(line.scale)?;
                *values.get_mut(line.basic.wrapping_sub(self.slacks))? = line
                    .cell(0)
                    .checked_mul(times)?;
            }
        }
        Some(())
    }

    fn values(&self, alloc: Global, unknowns: usize) -> Result<Found, OutOfMemory> {
        let mut values = zeros(alloc, unknowns)?;
        let Some(scale) = self.common_scale() else {
            return Ok(Found::Nothing);
        };
        match self.fill_values(scale, &mut values) {
            Some(()) => Ok(Found::Values(scale, values)),
            None => Ok(Found::Nothing),
        }
    }

    /// The multipliers of the rows: the scale for the slack of the line, and the sizes of its cells.
    fn multipliers(&self, alloc: Global, at: usize) -> Result<Found, OutOfMemory> {
        let mut all = zeros(alloc, self.slacks)?;
        let Some(line) = self.lines.get(at) else {
            return Ok(Found::Nothing);
        };
        if let Some(multiplier) = all.get_mut(line.basic) {
            *multiplier = line.scale;
        }
        for (variable, cell) in self.columns.iter().zip(line.cells.iter()) {
            if let (Some(multiplier), Some(size)) = (all.get_mut(*variable), cell.checked_neg()) {
                *multiplier = size;
            }
        }
        Ok(Found::Multipliers(all))
    }
}

/// Searches for values of the unknowns, or for multipliers of the rows.
pub fn search(alloc: Global, rows: &[&Row]) -> Result<Found, OutOfMemory> {
    let Some(count) = unknowns(rows) else {
        return Ok(Found::Nothing);
    };
    let mut tableau = Tableau::new(alloc, rows, count)?;
    match tableau.settle() {
        Settled::Solved => tableau.values(alloc, count),
        Settled::Negative(at) => tableau.multipliers(alloc, at),
        Settled::GaveUp => Ok(Found::Nothing),
    }
}
