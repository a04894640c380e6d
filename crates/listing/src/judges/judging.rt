// Judges whole puzzle texts.
ghost use Rattle.std.specs.Prelude.{◌≡◌, [], IfOk, Some, None};
ghost use Rattle.listing.specs.Listing.{page, listing, written};
ghost use Rattle.listing.specs.Sheets.{page_of};

use crate::judges::Judge;
use crate::outcomes::Refused;
use crate::sheets::Sheet;
use crate::texts::Lines;
use crate::workspaces::Workspace;
use std::alloc::{AllocError, Global};
use std::fmt;

// The most bytes that a puzzle text may have.
pub const MAX_TEXT: usize = 16384;

impl Judge {
    // Reserves all memory that any text needs. The listing is empty until a text is judged.
    pub fn new(heap: Global) -> Result<Judge, AllocError>
        ensures lists_nothing { IfOk result (λ j. page_of j.sheet ≡ record { header = None; entries = [] }) }
    {
        Ok(Judge {
            sheet: Sheet::new(heap)?,
            workspace: Workspace::new(heap)?,
        })
    }

    // Lists a puzzle text, whatever its bytes are. Line 0 and column 0 stand for none, as a listing prints them.
    pub fn judge(&mut self, text: &[u8])
        ensures holds_the_page { page_of self.new.sheet ≡ page text.now }
        ensures prints_the_listing { written (page_of self.new.sheet) ≡ listing text.now }
    {
        if text.len() > MAX_TEXT {
            self.sheet.refuse(0, Refused::LongText);
            return;
        }
        let mut lines = Lines::of(text);
        match lines.next() {
            None => self.sheet.refuse(0, Refused::NoSetting),
            Some((number, line)) => {
                if let Err(refused) = self.workspace.open(&mut self.sheet, line, lines) {
                    self.sheet.refuse(number, refused);
                }
            }
        }
    }
}

impl fmt::Display for Judge {
    ghost output = { λ j. Some (written (page_of j.sheet)) };

    fn fmt<W: fmt::Write>(&self, f: &mut fmt::Formatter<W>) -> fmt::Result {
        let sheet = &self.sheet;
        write!(f, "{sheet}")
    }
}
