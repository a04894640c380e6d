// Reads a later line, one after the setting.
ghost use Rattle.std.specs.Prelude.{◌≡◌};
ghost use Rattle.text.specs.Calls.{request_of, read_call};
ghost use Rattle.text.specs.Laws.{LinesRead};

use formulas::parts::end;
use lines::faults::LineFault;
use lines::firsts::{first_word, start};

// What a later line asks for. It stands beside the one of `lines`, since the program refuses lines `where` as yet.
#[derive(Clone, Copy, Debug, PartialEq, Eq)]
pub enum Call {
    Verdict,
}

// Reads a later line.
#[tactic(auto, using(crate::proofs::Steps::too_long, crate::proofs::Steps::no_word, crate::proofs::Steps::no_call, crate::proofs::Steps::a_call))]
pub fn read_call(line: &[u8]) -> Result<Call, LineFault>
    ensures answers_the_line { request_of result ≡ read_call line.now }
{
    let mut cursor = start(line)?;
    let first = first_word(&mut cursor)?;
    if first.word != b"verdict".as_slice() {
        return Err(LineFault::Word(first.column));
    }
    end(&mut cursor)?;
    Ok(Call::Verdict)
}

// Just the lines that are a word and its numbers are accepted, each for what it says.
pub fn lines_are_read_whole()
    ensures reads_whole_lines { LinesRead }
{}
