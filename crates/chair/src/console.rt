ghost use Rattle.std.specs.Prelude.{◌≡◌, None, IfOk};

use crate::board::Board;
use crate::command::Command;
use crate::command::parsing::{command_of, without_blanks};
use crate::log_file::{LOG, append};
use crate::note::Note;
use crate::session::Session;
use crate::start::Start;
use crate::text::COMMANDS;
use contest::contest::Contest;
use std::fs::File;
use std::io::BufRead;

// A session at the umpire's console: what the arguments said, the match in the umpire's hands, and the file of its log.
#[derive(Drop)]
pub struct Console<'rt, 's, 'a, 'b, C> {
    pub rt: &'rt HostRuntime,
    pub start: Start,
    pub session: &'s mut Session<'a, 'b, C>,
    pub file: File,
}

impl<'rt, 's, 'a, 'b, C: Contest> Console<'rt, 's, 'a, 'b, C> {
    // The console of a session that was just opened.
    pub fn new(
        rt: &'rt HostRuntime,
        start: Start,
        session: &'s mut Session<'a, 'b, C>,
        file: File,
    ) -> Console<'rt, 's, 'a, 'b, C>
        ensures start { result.start ≡ start }
        ensures session { result.session.now ≡ session.old }
    {
        Console {
            rt,
            start,
            session,
            file,
        }
    }

    // Leads the match from the first score to the last. If nothing fails, no rally is left open.
    pub fn sit(&mut self) -> anyhow::Result<()>
        ensures { IfOk result (λ _. self.new.session.now.held ≡ None) }
    {
        println!(self.rt; "{COMMANDS}\n")?;
        self.show(None)?;
        self.attend()?;
        self.close()
    }

    // Obeys the lines of the standard input, up to `quit` or their end.
    fn attend(&mut self) -> anyhow::Result<()> {
        let rt = self.rt;
        for line in rt.stdin().lock().split(rt.alloc(), b'\n') {
            let line = line?;
            if without_blanks(line.as_slice()).is_empty() {
                continue;
            }
            match command_of(line.as_slice()) {
                Ok(Command::Quit) => break,
                Ok(command) => {
                    let reply = self.session.obey(command);
                    append(&mut self.file, reply.record())?;
                    self.show(Note::of_reply(reply))?;
                }
                Err(none) => println!(rt; "{none}\n")?,
            }
        }
        Ok(())
    }

    // Settles a rally that is open as a let, and shows the last score.
    fn close(&mut self) -> anyhow::Result<()>
        ensures { IfOk result (λ _. self.new.session.now.held ≡ None) }
    {
        let open = self.session.ongoing().totals().in_play;
        let reply = self.session.close();
        append(&mut self.file, reply.record())?;
        self.show(open.map(Note::LetAtEnd))?;
        println!(self.rt; "the log is in {LOG}")?;
        Ok(())
    }

    // Shows the score, and under it a note.
    fn show(&self, note: Option<Note>) -> anyhow::Result<()> {
        let board = Board {
            start: self.start,
            ongoing: self.session.ongoing(),
        };
        match note {
            Some(note) => println!(self.rt; "{board}{note}")?,
            None => println!(self.rt; "{board}")?,
        }
        Ok(())
    }
}
