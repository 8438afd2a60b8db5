//! A script in memory, as an input that gives the lines at hand.
ghost use Rattle.std.specs.Prelude.{◌≡◌, ◌≢◌, ◌≤◌, take, vec_capacity};
ghost use Rattle.host_session.specs.declared.events.sources.Next.TheVariants as next;
ghost use Rattle.line_server.specs.Batches.{IsBatchTaken, texts_of};
ghost use Rattle.line_server.specs.Scripts.{of_script, text_left};

use crate::batches::{BatchSource, MOST_LINES};
use crate::reading::append_part;
use arrayvec::ArrayVec;
use host_session::Next;
use line_text::next_line;

/// The lines of a script, of which a last one without LF counts, in batches of 512. It never fails.
#[derive(Drop)]
pub struct ScriptBatches<'a> {
    left: &'a [u8],
}

impl<'a> ScriptBatches<'a> {
    /// All lines of this script.
    pub fn new(script: &'a [u8]) -> ScriptBatches<'a>
        ensures { result.left.now ≡ script.now }
    {
        ScriptBatches { left: script }
    }

    /// Takes the next lines, 512 at most.
    fn take_lines(&mut self, lines: &mut Vec<ArrayVec<u8, 40>>) -> Next
        requires room { 512 ≤ vec_capacity lines.old }
        ensures taken { IsBatchTaken (text_left self.old) (text_left self.new) (texts_of lines.new.items) result }
        ensures more { result ≢ next.Failed }
        ensures room { 512 ≤ vec_capacity lines.new }
    {
        lines.clear();
        for _ in 0..MOST_LINES {
            let Some((line, more)) = next_line(self.left) else {
                return Next::End;
            };
            lines.push_reserved(kept_of(line));
            self.left = more;
        }
        Next::Event
    }
}

/// What is kept of a line.
fn kept_of(line: &[u8]) -> ArrayVec<u8, 40>
    ensures { result.items ≡ take 40 line.now }
{
    let mut kept = ArrayVec::new();
    append_part(&mut kept, line);
    kept
}

impl<'a> BatchSource for ScriptBatches<'a> {
    ghost input = { of_script };

    fn give_batch(&mut self, lines: &mut Vec<ArrayVec<u8, 40>>) -> Next {
        self.take_lines(lines)
    }
}
