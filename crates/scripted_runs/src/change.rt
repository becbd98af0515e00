// What a script changes in its files.
ghost use Rattle.std.specs.Prelude.{◌≤◌};

use crate::names::{HAND, MADE, OTHER};
use crate::player::Player;
use demo_dataset::demo_files;
use plan_files::Files;
use script_files::{Script, TOO_LONG, Trouble, many, splits, text_named};

impl Player<'_> {
    // Changes files as a command says, and tells whether there is such a command.
    pub(crate) fn change(
        &mut self,
        word: &str,
        name: &str,
        script: &mut Script,
    ) -> Result<bool, Trouble> {
        match word {
            "dataset" => self.put_hand_files()?,
            "demo" => self.put_demo(name)?,
            "given" => self.give(name)?,
            "put" => self.put(name, &script.text(self.alloc)?)?,
            "append" => self.append(name, &script.text(self.alloc)?)?,
            "bytes" => self.put_bytes(name)?,
            "remove" => self.files.files.remove(name)?,
            "copy" => self.copy(name)?,
            "remember" => self.remember()?,
            _ => return self.change_more(word, name),
        }
        Ok(true)
    }

    fn change_more(&mut self, word: &str, name: &str) -> Result<bool, Trouble> {
        match word {
            "many" => self.put_many(name)?,
            "splits" => self.put_splits(name)?,
            "long" => self.put_long(name)?,
            "cut" => self.cut(name)?,
            "old" => self.put_old()?,
            "fails" => self.fail(name)?,
            "sink" => self.sink_kept = name.parse::<u64>().ok(),
            _ => return Ok(false),
        }
        Ok(true)
    }

    fn put(&mut self, name: &str, text: &[u8]) -> Result<(), Trouble> {
        Ok(self.files.files.put(name, text)?)
    }

    fn put_hand_files(&mut self) -> Result<(), Trouble> {
        for name in HAND {
            let text = text_named(self.alloc, self.worked, name)?;
            self.put(name, &text)?;
        }
        Ok(())
    }

    // Puts the files of a demo dataset.
    fn put_demo(&mut self, number: &str) -> Result<(), Trouble> {
        match number.parse::<u8>() {
            Ok(number @ 1..=8) => self.put_demo_files(number),
            _ => Ok(()),
        }
    }

    fn put_demo_files(&mut self, number: u8) -> Result<(), Trouble>
        requires low { 1 ≤ number }
        requires high { number ≤ 8 }
    {
        let demo = demo_files(self.alloc, number)?;
        for index in 0..demo.write_count() {
            let name = demo.write_name(index);
            if let Some(text) = demo.file(name) {
                self.put(name, text.as_bytes())?;
            }
        }
        Ok(())
    }

    fn give(&mut self, words: &str) -> Result<(), Trouble> {
        let (name, label) = words.split_once(' ').unwrap_or((words, words));
        let text = text_named(self.alloc, self.worked, label)?;
        self.put(name, &text)
    }

    fn put_bytes(&mut self, line: &str) -> Result<(), Trouble> {
        let (name, text) = line.split_once(' ').unwrap_or((line, ""));
        self.put(name, text.as_bytes())
    }

    fn append(&mut self, name: &str, rows: &[u8]) -> Result<(), Trouble> {
        let mut text = Vec::from_slice(self.alloc, self.text_of(name).unwrap_or(b""))?;
        text.extend_from_slice(rows)?;
        self.put(name, &text)
    }

    fn copy(&mut self, words: &str) -> Result<(), Trouble> {
        let (name, other) = words.split_once(' ').unwrap_or((words, words));
        let text = Vec::from_slice(self.alloc, self.text_of(name).unwrap_or(b""))?;
        self.put(other, &text)
    }

    // Takes bytes off the end of a file.
    fn cut(&mut self, words: &str) -> Result<(), Trouble> {
        let (name, count) = words.split_once(' ').unwrap_or((words, ""));
        let mut text = Vec::from_slice(self.alloc, self.text_of(name).unwrap_or(b""))?;
        text.truncate(
            text.len()
                .saturating_sub(count.parse::<usize>().unwrap_or(0)),
        );
        self.put(name, &text)
    }

    // Puts rows after what a file holds.
    fn put_many(&mut self, words: &str) -> Result<(), Trouble> {
        let (name, rest) = words.split_once(' ').unwrap_or((words, ""));
        let (count, row) = rest.split_once(' ').unwrap_or((rest, ""));
        let rows = many(self.alloc, count.parse::<u32>().unwrap_or(0), row)?;
        self.append(name, &rows)
    }

    fn put_splits(&mut self, words: &str) -> Result<(), Trouble> {
        let (name, count) = words.split_once(' ').unwrap_or((words, ""));
        let tree = splits(self.alloc, count.parse::<u32>().unwrap_or(0))?;
        self.put(name, &tree)
    }

    fn put_long(&mut self, name: &str) -> Result<(), Trouble> {
        let text = vec![in self.alloc; b'\n'; TOO_LONG]?;
        self.put(name, &text)
    }

    fn put_old(&mut self) -> Result<(), Trouble> {
        for name in MADE {
            self.put(name, b"old")?;
        }
        self.put(OTHER, b"kept")
    }

    // A call from here on fails, by its number, with so many bytes of what it was to put.
    fn fail(&mut self, numbers: &str) -> Result<(), Trouble> {
        let (call, kept) = numbers.split_once(' ').unwrap_or((numbers, ""));
        let call = call.parse::<u64>().unwrap_or(0);
        let number = self.files.files.calls().saturating_add(call);
        Ok(self.files.files.fail_at(number, kept.parse::<u64>().ok())?)
    }
}
