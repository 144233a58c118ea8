//! Laws of the reading of scripts and the grammar.
ghost use Rattle.script_read.specs.Laws.{CommandsAreInGrammar, ExpectationsAreInGrammar, InGrammarIsRead, ItemsAreInGrammar, OneScript, ReadIsInGrammar, RefusalIsFirst};

use frac_text::numbers_are_told;

/// A law, with nothing to run: a line is read as a command, and as an expectation, exactly where it is one by its form.
pub fn lines_are_told()
    ensures commands { CommandsAreInGrammar }
    ensures expectations { ExpectationsAreInGrammar }
{}

/// A law, with nothing to run: a word is read as an item exactly where it is one by its form.
pub fn items_are_told()
    ensures { ItemsAreInGrammar }
{
    numbers_are_told();
}

/// A law, with nothing to run: a file that is read is a script by the grammar, with these commands.
pub fn what_is_read_is_a_script()
    ensures { ReadIsInGrammar }
{}

/// A law, with nothing to run: each script of the grammar is read, and it is one script.
pub fn each_script_is_read()
    ensures read { InGrammarIsRead }
    ensures one { OneScript }
{
    numbers_are_told();
}

/// A law, with nothing to run: a text of at most 4,194,304 bytes that is refused is so by the first line that is: those before
/// it are commands, and with it they are refused, whatever stands behind.
pub fn refusals_are_of_first_lines()
    ensures { RefusalIsFirst }
{}
