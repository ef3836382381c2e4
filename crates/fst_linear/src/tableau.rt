// A simplex tableau over whole numbers, with a scale for each line.

use crate::wide::{Divisor, Magnitude, Wide};
use fst_base::OutOfMemory;
use fst_rows::{Row, gcd};
use std::alloc::Global;

/// The scale, which is at least 1, times the basic variable is the number in column 0 and the sum
/// of the other cells, each times the variable of its column.
#[derive(Debug, Drop)]
pub struct Line {
    pub basic: usize,
    pub scale: i128,
    pub cells: Vec<i128>,
}

/// Lines for as many basic variables. The slack of row r, which is the value of its right side, is
/// variable r, and the unknowns come after the slacks.
#[derive(Debug, Drop)]
pub struct Tableau {
    pub lines: Vec<Line>,
    pub columns: Vec<usize>,
    pub slacks: usize,
    room: Vec<i128>,
}

pub fn zeros(alloc: Global, count: usize) -> Result<Vec<i128>, OutOfMemory> {
    let mut all = Vec::with_capacity(alloc, count)?;
    for _ in 0..count {
        all.push(0)?;
    }
    Ok(all)
}

impl Line {
    /// The line of a row's slack.
    fn new(alloc: Global, row: &Row, slack: usize, width: usize) -> Result<Line, OutOfMemory> {
        let mut cells = zeros(alloc, width)?;
        if let Some(cell) = cells.get_mut(0) {
            *cell = row.constant;
        }
        for coef in row.coefs.as_slice() {
            if let Some(cell) = cells.get_mut((coef.unknown as usize).wrapping_add(1)) {
                *cell = coef.by;
            }
        }
        Ok(Line {
            basic: slack,
            scale: 1,
            cells,
        })
    }

    pub fn cell(&self, column: usize) -> i128 {
        self.cells.get(column).copied().unwrap_or(0)
    }

    fn put(&mut self, column: usize, number: i128) {
        if let Some(cell) = self.cells.get_mut(column) {
            *cell = number;
        }
    }

    /// Solves the line for the variable of a column, where its cell isn't 0: the scale changes
    /// places with the cell.
    fn solve(&mut self, column: usize, entering: usize) -> Option<()> {
        let cell = self.cell(column);
        if cell > 0 {
            for other in self.cells.iter_mut() {
                *other = other.checked_neg()?;
            }
            self.put(column, self.scale);
            self.scale = cell;
        } else {
            self.put(column, self.scale.checked_neg()?);
            self.scale = cell.checked_neg()?;
        }
        self.basic = entering;
        Some(())
    }

    /// Puts the variable that another line is solved for in place of the column's.
    fn replace(&mut self, by: &Line, column: usize, room: &mut Vec<i128>) -> Option<()> {
        let cell = self.cell(column);
        if cell == 0 {
            return Some(());
        }
        self.put(column, 0);
        let divisor = i128::try_from(gcd(cell.unsigned_abs(), by.scale.unsigned_abs())).ok()?;
        let own = by.scale.checked_div(divisor)?;
        let other = cell.checked_div(divisor)?;
        if own == 1 && self.scale == 1 {
            return self.add(by, other);
        }
        let scale = match self.sums(own, by, other, room) {
            Some(scale) => scale,
            None => self.wide_sums(own, by, other, room)?,
        };
        self.scale = scale;
        for (cell, number) in self.cells.iter_mut().zip(room.iter()) {
            *cell = *number;
        }
        Some(())
    }

    /// Adds a multiple of the other line to this one.
    fn add(&mut self, by: &Line, other: i128) -> Option<()> {
        for (cell, number) in self.cells.iter_mut().zip(by.cells.iter()) {
            if *number != 0 {
                *cell = cell.checked_add(other.checked_mul(*number)?)?;
            }
        }
        Some(())
    }

    /// Puts `own` times this line and `other` times the second one into the room, over their common
    /// divisor: the scale of the sum. None is a number past 128 bits.
    fn sums(&self, own: i128, by: &Line, other: i128, room: &mut Vec<i128>) -> Option<i128> {
        let scale = self.scale.checked_mul(own)?;
        let mut common = scale.unsigned_abs();
        for (sum, (cell, number)) in room.iter_mut().zip(self.cells.iter().zip(by.cells.iter())) {
            *sum = cell
                .checked_mul(own)?
                .checked_add(other.checked_mul(*number)?)?;
            if common != 1 && *sum != 0 {
                common = gcd(sum.unsigned_abs(), common);
            }
        }
        if common == 1 {
            return Some(scale);
        }
        let common = i128::try_from(common).ok()?;
        for sum in room.iter_mut() {
            *sum = sum.checked_div(common)?;
        }
        scale.checked_div(common)
    }

    /// The same where the sums are past 128 bits before they are divided.
    fn wide_sums(&self, own: i128, by: &Line, other: i128, room: &mut Vec<i128>) -> Option<i128> {
        let scale = Wide::sum_of_products(self.scale, own, 0, 0);
        let common = self.common_divisor(scale.size, own, by, other)?;
        for (sum, (cell, number)) in room.iter_mut().zip(self.cells.iter().zip(by.cells.iter())) {
            *sum = common.quotient_of(Wide::sum_of_products(*cell, own, *number, other))?;
        }
        common.quotient_of(scale)
    }

    /// The greatest common divisor of the scale and all the sums.
    fn common_divisor(
        &self,
        scale: Magnitude,
        own: i128,
        by: &Line,
        other: i128,
    ) -> Option<Divisor> {
        let mut common = scale;
        let mut divisor = Divisor::new(common);
        for (cell, number) in self.cells.iter().zip(by.cells.iter()) {
            if common.is_one() {
                break;
            }
            let sum = Wide::sum_of_products(*cell, own, *number, other).size;
            if divisor.and_then(|d| d.quotient(sum)).is_none() {
                common = common.gcd(sum);
                divisor = Divisor::new(common);
            }
        }
        divisor
    }
}

impl Tableau {
    /// The lines of the slacks, over so many unknowns.
    pub fn new(alloc: Global, rows: &[&Row], unknowns: usize) -> Result<Tableau, OutOfMemory> {
        let slacks = rows.len();
        let width = unknowns.wrapping_add(1);
        let mut columns = Vec::with_capacity(alloc, width)?;
        columns.push(usize::MAX)?;
        for unknown in 0..unknowns {
            columns.push(slacks.wrapping_add(unknown))?;
        }
        let mut lines = Vec::with_capacity(alloc, slacks)?;
        for (slack, row) in rows.iter().enumerate() {
            lines.push(Line::new(alloc, row, slack, width)?)?;
        }
        let room = zeros(alloc, width)?;
        Ok(Tableau {
            lines,
            columns,
            slacks,
            room,
        })
    }

    pub fn is_slack(&self, variable: usize) -> bool {
        variable < self.slacks
    }

    /// Solves a line for the variable of a column, and puts that into the other lines.
    pub fn pivot(&mut self, at: usize, column: usize) -> Option<()> {
        if at >= self.lines.len() {
            return None;
        }
        let mut line = self.lines.swap_remove(at);
        let leaving = line.basic;
        let entering = *self.columns.get(column)?;
        line.solve(column, entering)?;
        *self.columns.get_mut(column)? = leaving;
        for other in self.lines.iter_mut() {
            other.replace(&line, column, &mut self.room)?;
        }
        self.lines.push(line).ok()
    }
}
