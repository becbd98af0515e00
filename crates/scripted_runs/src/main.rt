//! Plays scripts over the program's top call, and prints which of them hold.
//!
//! The scripts stand in files that the words of the command line name (crate `script_files`). Each is
//! played over an empty folder in memory. Each line is a command; the lines that begin with a bar are
//! the text that belongs to the command before them, and those that begin with two slashes are for
//! readers. The commands:
//!
//! ```text
//! dataset                  puts the five hand files of the worked dataset
//! demo NUMBER              puts the hand files of a demo dataset
//! given NAME               puts the worked text of a file, or with one word more that text of this name
//! put NAME | rows          puts rows
//! bytes NAME TEXT          puts a text that no line end closes
//! append NAME | rows       puts rows after what a file holds
//! many NAME COUNT ROW      puts a row so many times after what a file holds; in it <k> counts from 1
//! splits NAME LINES        puts a tree that splits off the greatest frequency of each line, again and again
//! long NAME                puts a byte more than a file may have that people write
//! copy NAME OTHER          puts what a file holds under another name
//! cut NAME COUNT           takes so many bytes off the end of a file
//! remove NAME              removes a file
//! old                      puts an old text under each made name, and a file that is no one's
//! fails CALL KEPT          has a call on the files fail, from here on, with so many bytes kept
//! sink KEPT                has the sink of the next run fail, with so many bytes written
//! run WORDS                runs the program
//! reads WORD STATUS | rows runs a word that only reads: its exit status, and its whole report; no step
//!                          is counted and nothing is written
//! ends STATUS STEPS        the exit status, and how many steps were counted, or * for any number
//! report | rows            the whole report
//! begins | rows            its first lines
//! closes | rows            its last lines
//! says TEXT                the whole report, which no line end closes
//! writes | rows            all writes of the run: + NAME for a put, - NAME for a removal; also
//!                          + made from NAME, the made files from one on, and + keep from NAME
//! calls COUNT              how many calls on files the run made
//! called | rows            all calls on files of the run; called COUNT, the first so many of the rows;
//!                          called again, those of the run before
//! stops WORDS              runs words that only read, once for each call of the last run, where that
//!                          call fails: no other one comes after it, nothing is written, and the report
//!                          is `file fault`, written by one call
//! piece SIZE               the report was written by one call, of so many bytes, or failed by it
//! made STAGE               the made files up to a stage are there, and no others; with the word
//!                          unmarked the tree of the concept is not there
//! worked NAME              a file has its worked text, or with one word more the text of that name
//! worked made, worked hand each made file, or each hand file, has its worked text
//! holds NAME | rows        a file has these rows
//! is NAME TEXT             a file has a text that no line end closes
//! size NAME COUNT          a file has so many bytes
//! lacks NAME               a file is not there
//! remember                 notes the made and the keep files
//! same made, same keep     these are as they were noted
//! ```
#![tactic(auto)]

mod change;
mod names;
mod player;
mod stands;
mod stops;

use crate::player::Player;
use script_files::{Play, Trouble, play_files};
use std::alloc::Global;
use std::fs;
use std::process::ExitCode;
use std::rt::{Env, Files};

// What plays scripts over runs of the program, with the worked texts.
#[derive(Drop)]
struct Runs {
    alloc: Global,
    worked: String,
}

impl Play for Runs {
    fn play(&mut self, script: &str) -> Result<Option<String>, Trouble> {
        let mut player = Player::new(self.alloc, &self.worked);
        match player.play(script)? {
            Some(line) => Ok(Some(player.tell(line)?)),
            None => Ok(None),
        }
    }
}

// Whether all scripts hold.
fn play_all<R: AllocGlobal + Env + Files + Print>(rt: &R) -> Result<bool, Trouble> {
    let worked = fs::read_to_string(rt, "worked.txt")?;
    let mut runs = Runs {
        alloc: rt.alloc(),
        worked,
    };
    play_files(rt, &mut runs)
}

fn main(rt: HostRuntime) -> ExitCode {
    match play_all(&rt) {
        Ok(true) => ExitCode::SUCCESS,
        Ok(false) => ExitCode::FAILURE,
        Err(_trouble) => ExitCode::from(2),
    }
}
