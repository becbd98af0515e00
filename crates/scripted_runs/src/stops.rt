// Runs in which each call on a file fails in turn.
use crate::player::Player;
use script_files::Trouble;

impl Player<'_> {
    // Whether words that only read stop at each of the calls that the last run made, where it fails.
    pub(crate) fn stops_at_each_call(&mut self, words: &str) -> Result<bool, Trouble> {
        let whole = Vec::from_slice(self.alloc, &self.files.lines)?;
        for call in 1..=self.calls_made() {
            let number = self.files.files.calls().saturating_add(call);
            self.files.files.fail_at(number, None)?;
            self.run(words)?;
            if !self.has_stopped(call, &whole) {
                return Ok(false);
            }
        }
        Ok(true)
    }

    // Whether the last run made so many of the calls of these lines and no others, and told that a file
    // could not be read.
    fn has_stopped(&self, calls: u64, whole: &[u8]) -> bool {
        let is_told = self.ended.status == 6 && self.out.sink.bytes() == b"file fault\n".as_slice();
        let is_quiet = self.files.files.write_count() == self.writes_before;
        is_told
            && is_quiet
            && self.is_one_piece("11")
            && self.ended.steps == 0
            && self.calls_made() == calls
            && whole.starts_with(&self.files.lines)
    }
}
