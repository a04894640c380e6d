// Filling a sheet, and writing it.
ghost use Rattle.std.specs.Prelude.{◌≡◌, [], IfOk, Some, None};
ghost use Rattle.listing.specs.Lines.{lines_left};
ghost use Rattle.listing.specs.Listing.{played, refusing, written};
ghost use Rattle.listing.specs.Readings.{refused_in};
ghost use Rattle.listing.specs.Sheets.{page_of};

use crate::findings::{entry_for, header_for};
use crate::outcomes::{Entry, Refused};
use crate::sheets::Sheet;
use crate::texts::Lines;
use model::questions::Model;
use std::alloc::{AllocError, Global};
use std::fmt;

// The most lines that a puzzle text has: one for each byte, and one after the last.
const MAX_LINES: usize = 16385;

impl Sheet {
    pub fn new(heap: Global) -> Result<Sheet, AllocError>
        ensures is_empty { IfOk result (λ s. page_of s ≡ record { header = None; entries = [] }) }
    {
        let entries = Vec::with_capacity(heap, MAX_LINES)?;
        Ok(Sheet {
            header: None,
            entries,
        })
    }

    // The listing of a model and of the lines after its setting.
    pub fn list<M: Model>(&mut self, model: &M, lines: Lines<'_>)
        ensures holds_the_page { page_of self.new ≡ played (M.meaning model.now) lines.entry.number (lines_left lines.entry.rest) }
    {
        self.header = Some(header_for(model));
        self.entries.clear();
        for (number, line) in lines {
            self.entries.push_reserved(entry_for(model, number, line));
        }
    }

    // A listing of one refusal.
    pub fn refuse(&mut self, number: u32, refused: Refused)
        ensures holds_the_refusal { page_of self.new ≡ refusing number (refused_in refused) }
    {
        self.entries.clear();
        self.header = None;
        self.entries.push_reserved(Entry {
            number,
            outcome: refused.into(),
        });
    }
}

impl fmt::Display for Sheet {
    ghost output = { λ s. Some (written (page_of s)) };

    fn fmt<W: fmt::Write>(&self, f: &mut fmt::Formatter<W>) -> fmt::Result {
        if let Some(header) = self.header {
            writeln!(f, "{header}")?;
        }
        for entry in self.entries.as_slice() {
            writeln!(f, "{entry}")?;
        }
        Ok(())
    }
}
