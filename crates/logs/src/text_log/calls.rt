// A text log is opened, is a source, and shows its faulty line.
ghost use Rattle.std.specs.Prelude.{◌≡◌, drop};
ghost use Rattle.logs.specs.Events.{first, meant};
ghost use Rattle.logs.specs.TextLogs.{log_waiting, log_ending, Opens, faulty_line};

use super::TextLog;
use super::ahead::read_ahead;
use crate::source::{Next, Source};
use kinds::kind::Kind;
use text::lines;

impl<'a, K: Kind> TextLog<'a, K> {
    /// The log of that number in a text.
    #[tactic(auto, using(crate::proofs::Lawful::log_law))]
    pub fn open(text: &'a [u8], log: u8) -> TextLog<'a, K>
        ensures { Opens K.Kind log text.now result }
    {
        let ahead = read_ahead(text, log, 0, 0);
        TextLog { text, log, ahead }
    }

    /// The line of the fault that the log has come to; empty while a record waits, and at a clean ending.
    pub fn faulty_line(&self) -> &'a [u8]
        ensures { result.now ≡ faulty_line self.now.text.now (first (log_waiting K.Kind self.now) (log_ending K.Kind self.now)) }
    {
        match self.look() {
            Err(found) => lines::faulty_line(self.text, &found.fault),
            Ok(_) => &self.text[0..0],
        }
    }
}

impl<'a, K: Kind> Source<K> for TextLog<'a, K> {
    ghost waiting = { λ kind s. log_waiting kind s };

    ghost ending = { λ kind s. log_ending kind s };

    fn look(&self) -> Next<K> {
        self.ahead.next
    }

    fn take(&mut self) -> Next<K>
        ensures next { meant K.value result ≡ first (log_waiting K.Kind self.old) (log_ending K.Kind self.old) }
        ensures left { log_waiting K.Kind self.new ≡ drop 1 (log_waiting K.Kind self.old) }
        ensures same { log_ending K.Kind self.new ≡ log_ending K.Kind self.old }
        ensures text { self.new.text.now ≡ self.old.text.now }
    {
        let next = self.look();
        if let Ok(Some(_)) = next {
            self.ahead = read_ahead(self.text, self.log, self.ahead.lines, self.ahead.cursor);
        }
        next
    }
}
