// A script read line by line.
ghost use Rattle.std.specs.Prelude.{◌≡◌};
ghost use Rattle.script.specs.Answers.{Changes};
ghost use Rattle.script.specs.Commands.{and_then, told, said_by, call_said};
ghost use Rattle.script.specs.Drafts.{draft_of, still_open, set_up_by, call_by, line_taken};
ghost use Rattle.script.specs.Cuts.{words_left};
ghost use Rattle.script.specs.Scripts.{ReadAs, script_in};
ghost use Rattle.script.specs.Texts.{words_of};
ghost use Rattle.script.specs.declared.command.Part.TheVariants.{Charge};

use crate::calls::{file_call, only, opening, read_call};
use crate::command::{Asked, Command, Part, command_named};
use crate::draft::{Draft, set_room};
use crate::fault::{Stop, Unread, Wrong};
use crate::number::Number;
use crate::script::Script;
use crate::words::{Lines, Words, read_numbers};
use book::Call;
use std::alloc::Global;

// The call that is asked with these numbers.
fn call_of(asked: Asked, numbers: &[Number]) -> Result<Call, Wrong>
    ensures { told said_by result ≡ call_said asked numbers.now }
{
    match asked {
        Asked::File => file_call(numbers),
        Asked::Read => read_call(numbers),
        Asked::Open => Ok(Call::Open {
            month: only(numbers)?,
        }),
        Asked::Post => Ok(Call::Post(opening(numbers)?)),
        Asked::Withdraw => Ok(Call::Withdraw(opening(numbers)?)),
        Asked::State => Ok(Call::State {
            month: only(numbers)?,
        }),
    }
}

impl Draft {
    // Takes the charge in: its kind, and then its setting.
    fn take_charge(&mut self, mut words: Words<'_>) -> Result<(), Stop>
        ensures { Changes result (draft_of self.new) (set_up_by (draft_of self.old) Charge (words_left words.entry)) }
    {
        let kind = words.next().unwrap_or(&[]);
        self.set_charge(kind, &read_numbers(self.heap, words)?)
    }

    // Takes a part of the set-up in, with the words behind it.
    fn take_set_up(&mut self, part: Part, words: Words<'_>) -> Result<(), Stop>
        ensures { Changes result (draft_of self.new) (and_then (still_open (draft_of self.old)) (λ _. set_up_by (draft_of self.old) part (words_left words.entry))) }
    {
        self.set_up_is_open()?;
        match part {
            Part::Owners => self.set_owners(&read_numbers(self.heap, words)?)?,
            Part::Charge => self.take_charge(words)?,
            Part::Layer => self.add_layer(&read_numbers(self.heap, words)?)?,
            Part::Journal => set_room(&mut self.journal, &read_numbers(self.heap, words)?)?,
            Part::Roll => set_room(&mut self.roll, &read_numbers(self.heap, words)?)?,
        }
        Ok(())
    }

    // Takes a call in, with the words behind it.
    fn take_call(&mut self, asked: Asked, words: Words<'_>) -> Result<(), Stop>
        ensures { Changes result (draft_of self.new) (call_by (draft_of self.old) asked (words_left words.entry)) }
    {
        self.set_up_is_done()?;
        let numbers = read_numbers(self.heap, words)?;
        self.calls.push(call_of(asked, &numbers)?)?;
        Ok(())
    }

    // Takes a line in; one without words, or that begins with #, says nothing.
    fn take(&mut self, line: &[u8]) -> Result<(), Stop>
        ensures { Changes result (draft_of self.new) (line_taken (draft_of self.old) (words_of line.now)) }
    {
        let mut words = Words { line };
        let Some(word) = words.next() else {
            return Ok(());
        };
        if let [b'#', ..] = word {
            return Ok(());
        }
        match command_named(word).ok_or(Wrong::UnknownCommand)? {
            Command::SetUp(part) => self.take_set_up(part, words),
            Command::Call(asked) => self.take_call(asked, words),
        }
    }
}

// The script that a text writes, or the first of its lines that cannot be read; what it lacks in all is told behind
// the last.
pub fn read_script(heap: Global, text: &[u8]) -> Result<Script, Unread>
    ensures { ReadAs result (script_in text.now) }
{
    let mut draft = Draft::new(heap);
    // As it is: tried as enumerate, behind which the lines are counted once more where the script lacks something.
    let mut number = 1;
    for line in (Lines { text }) {
        draft.take(line).map_err(|stop| stop.at_line(number))?;
        number += 1;
    }
    draft.finish().map_err(|wrong| Unread::Line {
        line: number,
        wrong,
    })
}
