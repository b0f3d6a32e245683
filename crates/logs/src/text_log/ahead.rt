// What a text log has read ahead, and how it reads a line.
ghost use Rattle.std.specs.Prelude.{◌≡◌, ◌+◌, ◌≤◌, length, drop};
ghost use Rattle.text.specs.Split.{split};
ghost use Rattle.logs.specs.Reading.{judged, records_from, ending_from};
ghost use Rattle.logs.specs.Lined.{ReadsRecord};
ghost use Rattle.logs.specs.TextLogs.{ahead_waiting, ahead_ending};

use crate::ending::LogFault;
use crate::line::read_line;
use crate::record::Record;
use crate::source::Next;
use kinds::kind::Kind;
use text::fault::Fault;
use text::lines::line_at;

/// What comes next, how many lines were read, and where the line after them begins.
#[derive(Clone, Copy, Debug, PartialEq, Eq)]
pub struct Ahead<K> {
    pub next: Next<K>,
    pub lines: usize,
    pub cursor: usize,
}

/// A record, and where the line after its own begins.
#[derive(Clone, Copy, Debug, PartialEq, Eq)]
pub struct Lined<K> {
    record: Record<K>,
    end: usize,
}

/// The record in line `number`, which begins at byte `from`.
#[tactic(auto, using(crate::proofs::Passing::line_passes))]
fn read_record<K: Kind>(text: &[u8], from: usize, number: usize) -> Result<Lined<K>, Fault>
    ensures { ReadsRecord K.value text.now from (judged K.fields K.means K.stamp number (split 10 (drop from text.now))) result }
{
    let line = line_at(text, from, number)?;
    let record = read_line(line, number)?;
    Ok(Lined {
        record,
        end: from + line.len() + 1,
    })
}

/// What comes next in the log of that number after so many lines, of which the next begins at byte `cursor`.
#[tactic(auto, using(crate::proofs::Passing::ends_here))]
pub fn read_ahead<K: Kind>(text: &[u8], log: u8, lines: usize, cursor: usize) -> Ahead<K>
    requires within { cursor ≤ length text.now }
    requires counted { lines ≤ cursor }
    ensures waiting { ahead_waiting K.Kind text.now result ≡ records_from K.fields K.means K.stamp (lines + 1) (split 10 (drop cursor text.now)) }
    ensures ending { ahead_ending K.Kind log text.now result ≡ ending_from K.fields K.means K.stamp log (lines + 1) (split 10 (drop cursor text.now)) }
    ensures within { result.cursor ≤ length text.now }
    ensures counted { result.lines ≤ result.cursor }
{
    if cursor >= text.len() {
        return Ahead {
            next: Ok(None),
            lines,
            cursor,
        };
    }
    match read_record::<K>(text, cursor, lines + 1) {
        Ok(Lined { record, end }) => Ahead {
            next: Ok(Some(record)),
            lines: lines + 1,
            cursor: end,
        },
        Err(fault) => Ahead {
            next: Err(LogFault { log, fault }),
            lines,
            cursor,
        },
    }
}
