//! What is printed: tables, whose columns are data.

use crate::modes::Mode;
use crate::rounds::Times;
use std::io;
use std::num::nearest_usize_to_f64;
use std::time::Duration;

/// What a table shows.
#[derive(Clone, Copy)]
pub struct Layout {
    /// The line before the table.
    pub title: &'static str,
    /// What a row is of, and how wide its name is.
    pub of: &'static str,
    pub width: usize,
    pub columns: &'static [Column],
}

/// A column: its head, how wide it is, how many decimals its numbers have, and what they are.
#[derive(Clone, Copy, Drop)]
pub struct Column(pub &'static str, pub usize, pub usize, pub Figure);

/// A number of a row.
#[derive(Clone, Copy, Drop)]
pub enum Figure {
    /// The octets of a message.
    Octets,
    /// Megabytes a second of what a row is compared with.
    Beside,
    /// Megabytes a second.
    Megabytes(Work),
    /// Messages a second.
    Messages(Work),
    /// Messages a second of what a row is compared with.
    MessagesBeside(Work),
    /// How often the time of what a row is compared with.
    Times(Work),
    /// The nanoseconds that a message is read beyond those.
    Beyond,
    /// The microseconds of a batch.
    Microseconds,
}

/// What is done with a message.
#[derive(Clone, Copy, Drop)]
pub enum Work {
    Read,
    Mark,
    Write,
}

/// What was measured.
#[derive(Clone, Copy)]
pub struct Measured {
    /// How many octets a message has.
    pub size: usize,
    /// How many messages took a time.
    pub count: usize,
    pub times: Times,
    /// What those are compared with.
    pub beside: Times,
}

impl Measured {
    /// Returns the shorter times of two rounds.
    pub fn least(self, other: Measured) -> Measured {
        Measured {
            size: self.size,
            count: self.count,
            times: self.times.least(other.times),
            beside: self.beside.least(other.beside),
        }
    }

    /// Returns the time of a work, and what it is compared with.
    fn of(&self, work: Work) -> (Duration, Duration) {
        match work {
            Work::Read => (self.times.read, self.beside.read),
            Work::Mark => (self.times.mark, self.beside.mark),
            Work::Write => (self.times.write, self.beside.write),
        }
    }

    /// Returns a number.
    fn figure(&self, figure: Figure) -> f64 {
        let (size, count) = (
            nearest_usize_to_f64(self.size),
            nearest_usize_to_f64(self.count),
        );
        let (read, beside) = (
            self.times.read.as_secs_f64(),
            self.beside.read.as_secs_f64(),
        );
        match figure {
            Figure::Octets => size,
            Figure::Beside => size / beside / 1e6,
            Figure::Megabytes(work) => size / self.of(work).0.as_secs_f64() / 1e6,
            Figure::Messages(work) => count / self.of(work).0.as_secs_f64(),
            Figure::MessagesBeside(work) => count / self.of(work).1.as_secs_f64(),
            Figure::Times(work) => {
                let (took, beside) = self.of(work);
                took.div_duration_f64(beside)
            }
            Figure::Beyond => (read - beside) * 1e9 / count,
            Figure::Microseconds => read * 1e6,
        }
    }
}

impl Layout {
    /// Prints the head of the table, if the mode prints one.
    pub fn begin(&self, rt: &HostRuntime, mode: Mode) -> io::Result<()> {
        let Mode::Time = mode else {
            return Ok(());
        };
        println!(rt; "{}", self.title)?;
        print!(rt; "{:<width$}", self.of, width = self.width)?;
        for &Column(head, width, _, _) in self.columns {
            print!(rt; " {head:>width$}")?;
        }
        println!(rt; "")
    }

    /// Prints a row, or what of it is the same in every run.
    pub fn row(
        &self,
        rt: &HostRuntime,
        mode: Mode,
        name: &str,
        measured: &Measured,
    ) -> io::Result<()> {
        let Mode::Time = mode else {
            return println!(rt; "{}: {name}, {} octets", self.of, measured.size);
        };
        print!(rt; "{name:<width$}", width = self.width)?;
        for &Column(_, width, decimals, figure) in self.columns {
            print!(rt; " {:>width$.decimals$}", measured.figure(figure))?;
        }
        println!(rt; "")
    }
}
