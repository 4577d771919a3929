//! Rows with their answers, as they are read.
ghost use Rattle.std.specs.Prelude.{◌≡◌, [], None, OnOk, string_bytes};

use crate::family::Family;
use std::alloc::Global;
use std::test::Fail;

/// What is asked by rows.
pub trait Ask {
    /// The lines that tell what a row gives.
    fn given_by(alloc: Global, row: &str) -> Result<String, Fail>;
}

/// What was read and isn't judged yet.
#[derive(Drop)]
pub struct Reading {
    /// The row that was read last, if any.
    row: Option<String>,
    /// The lines below it.
    told: String,
    /// The rows below the heading that was read last, if any.
    family: Option<Family>,
}

impl Reading {
    /// Nothing read.
    pub fn new(alloc: Global) -> Reading
        ensures row { result.row ≡ None }
        ensures told { string_bytes result.told ≡ [] }
        ensures family { result.family ≡ None }
    {
        Reading {
            row: None,
            told: String::new(alloc),
            family: None,
        }
    }

    /// Takes a line: one of an answer, a heading or a row.
    pub fn take_line<A: Ask>(
        &mut self,
        rt: &impl Print,
        alloc: Global,
        line: String,
    ) -> Result<(), Fail> {
        if line.as_str().starts_with('=') {
            return self.take_told(line.as_str());
        }
        self.judge_row::<A>(rt, alloc)?;
        if line.as_str().starts_with('#') {
            return self.take_heading(rt, line.as_str());
        }
        self.row = Some(line);
        Ok(())
    }

    /// Judges the last row, and ends the last family.
    pub fn end<A: Ask>(&mut self, rt: &impl Print, alloc: Global) -> Result<(), Fail>
        ensures row { OnOk result (self.new.row ≡ None) }
        ensures family { OnOk result (self.new.family ≡ None) }
    {
        self.judge_row::<A>(rt, alloc)?;
        self.end_family(rt)
    }

    fn take_told(&mut self, line: &str) -> Result<(), Fail> {
        if self.row.is_none() {
            return Err("an answer below no row".into());
        }
        writeln!(self.told, "{line}")?;
        Ok(())
    }

    fn take_heading(&mut self, rt: &impl Print, line: &str) -> Result<(), Fail> {
        self.end_family(rt)?;
        println!(rt; "{line}")?;
        self.family = Some(Family::new());
        Ok(())
    }

    /// Prints how the rows of the last family were.
    fn end_family(&mut self, rt: &impl Print) -> Result<(), Fail>
        ensures row { self.new.row ≡ self.old.row }
        ensures family { self.new.family ≡ None }
    {
        match self.family.take() {
            Some(family) => family.print_count(rt),
            None => Ok(()),
        }
    }

    /// Judges the last row, if any.
    fn judge_row<A: Ask>(&mut self, rt: &impl Print, alloc: Global) -> Result<(), Fail>
        ensures { OnOk result (self.new.row ≡ None) }
    {
        let Some(row) = self.row.take() else {
            return Ok(());
        };
        let given = A::given_by(alloc, row.as_str())?;
        self.count_row(rt, row.as_str(), given.as_str())?;
        self.told.clear();
        Ok(())
    }

    /// Counts a row that gave these lines.
    fn count_row(&mut self, rt: &impl Print, row: &str, given: &str) -> Result<(), Fail>
        ensures { self.new.row ≡ self.old.row }
    {
        match &mut self.family {
            Some(family) => family.judge(rt, row, self.told.as_str(), given),
            None => Err("a row below no heading".into()),
        }
    }
}
